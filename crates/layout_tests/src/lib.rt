// Tests of the units of the store.
#![tactic(auto)]

#[cfg(test)]
mod tests {
    use flash::units::Unit;
    use layout::catalogue::*;
    use layout::codec::*;
    use layout::crc::crc16;
    use layout::meanings::{Meaning, Pair};
    use layout::merge::merged;
    use layout::pairs::Pairs;
    use std::test::Fail;

    fn pair(key: u8, value: i32) -> Pair {
        Pair { key, value }
    }

    #[test]
    fn crc_of_the_digits(rt: HostRuntime) {
        assert_eq!(rt; crc16(b"123456789"), 0x29b1);
    }

    #[test]
    fn the_catalogue(rt: HostRuntime) {
        assert_eq!(rt; key_named("AC1"), 1);
        assert_eq!(rt; key_named("PCOR"), 13);
        assert_eq!(rt; key_named("AC7"), 0);
        assert_eq!(rt; name_of(0), None);
        assert_eq!(rt; name_of(8), Some("B2"));
        assert_eq!(rt; name_of(14), None);
        assert!(rt; is_key(13));
        assert!(rt; !is_key(14));
        assert!(rt; admits(pair(4, 65534)));
        assert!(rt; !admits(pair(9, -1)));
        assert!(rt; !admits(pair(12, 4)));
    }

    #[test]
    fn pairs_in_order(rt: HostRuntime) {
        let mut base = Pairs::new();
        assert!(rt; base.lay(pair(9, -2)));
        assert!(rt; base.lay(pair(2, 7)));
        assert!(rt; !base.lay(pair(4, 65535)));
        let mut change = Pairs::new();
        assert!(rt; change.lay(pair(2, 8)));
        assert!(rt; change.lay(pair(13, 0)));
        let all = merged(&base, &change);
        assert_eq!(rt; all.len(), 3);
        assert_eq!(rt; all.value(2), Some(8));
        assert_eq!(rt; all.value(9), Some(-2));
        assert_eq!(rt; all.value(3), None);
    }

    #[test]
    fn pairs_one_after_the_other(rt: HostRuntime) {
        let mut pairs = Pairs::new();
        assert!(rt; pairs.lay(pair(9, -2)));
        assert!(rt; pairs.lay(pair(2, 7)));
        let mut left = pairs.iter();
        assert_eq!(rt; left.next(), Some(pair(2, 7)));
        assert_eq!(rt; left.next(), Some(pair(9, -2)));
        assert_eq!(rt; left.next(), None);
    }

    #[test]
    fn units_say_what_was_written(rt: HostRuntime) {
        let record = encode_record(pair(9, -32768));
        assert_eq!(rt;
            meaning(Unit::Programmed(record)),
            Meaning::Record(pair(9, -32768))
        );
        assert_eq!(rt; meaning(Unit::Programmed(record ^ 0x10000)), Meaning::Noise);
        assert_eq!(rt;
            meaning(Unit::Programmed(encode_commit(13, 1))),
            Meaning::Noise
        );
        assert_eq!(rt;
            meaning(Unit::Programmed(encode_header(48, 7))),
            Meaning::Header {
                count: 48,
                number: 7
            }
        );
        assert_eq!(rt; meaning(Unit::Unreadable), Meaning::Noise);
    }

    #[test]
    fn meaning_as_text(rt: HostRuntime) -> Result<(), Fail> {
        for (meant, text) in [
            (Meaning::Noise, "Noise"),
            (
                Meaning::Record(pair(9, -2)),
                "Record(Pair { key: 9, value: -2 })",
            ),
            (
                Meaning::Commit {
                    count: 1,
                    number: 2,
                },
                "Commit(1, 2)",
            ),
            (
                Meaning::Header {
                    count: 48,
                    number: 7,
                },
                "Header(48, 7)",
            ),
        ] {
            let shown = format!(in rt.alloc(); "{meant:?}")?;
            assert_eq!(rt; shown.as_str(), text);
        }
        Ok(())
    }
}
