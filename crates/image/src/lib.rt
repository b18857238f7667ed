// A flash kept in a byte buffer.
#![tactic(auto)]

mod headers;
pub mod image_checks;
pub mod image_faults;
pub mod images;
mod units;

pub use image_checks::{OpenFault, check_image};
pub use image_faults::ImageFault;
pub use images::Image;
pub use images::opens::NotOpened;
