// What a flash is: its units, its faults and its calls, with the meaning of each call.
#![tactic(auto)]

pub mod causes;
pub mod faults;
pub mod interface;
pub mod own_faults;
pub mod planned;
pub mod plans;
pub mod shapes;
pub mod units;
