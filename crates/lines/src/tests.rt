// Lines as they are typed, and answers as they are printed.
use crate::answers::Answer;
use crate::commands::{Command, command_of};
use std::test::Fail;

const EXTREME: Command = Command::Plan {
    charge: 4294967295,
    residue: 255,
    pattern: 18446744073709551615,
};

fn put(key: u8, value: i32) -> Option<Command> {
    Some(Command::Put { key, value })
}

#[test]
fn lines_are_commands(rt: HostRuntime) {
    let cases: [(&[u8], Option<Command>); 21] = [
        (b"", None),
        (b"   ", None),
        (b"  format ", Some(Command::Format)),
        (b"format now", None),
        (b"FORMAT", None),
        (b"recover", Some(Command::Recover)),
        (b"begin\t", None),
        (b"plan 4294967295 255 18446744073709551615", Some(EXTREME)),
        (b"plan 4294967296 0 0", None),
        (b"plan 0 256 0", None),
        (b"plan 0 0 18446744073709551616", None),
        (b"plan 0 0 0 0", None),
        (b"put B2 4", put(8, 4)),
        (b"put PCOR -0007", put(13, -7)),
        (b"put b2 -0", put(0, 0)),
        (b"put \xff 2147483647", put(0, 2147483647)),
        (b"put 7 -2147483648", put(0, -2147483648)),
        (b"put B2 2147483648", None),
        (b"temp +5", None),
        (b"temp -", None),
        (
            b"press 00000000000000000000000000000000000000000023843",
            Some(Command::Pressure { up: 23843 }),
        ),
    ];
    for (line, command) in cases {
        assert_eq!(rt; command_of(line), command);
    }
}

#[test]
fn a_line_has_at_most_80_bytes(rt: HostRuntime) {
    let mut line = [b' '; 81];
    line[..6].copy_from_slice(b"commit");
    assert_eq!(rt; command_of(&line[..80]), Some(Command::Commit));
    assert_eq!(rt; command_of(&line), None);
}

#[test]
fn answers_are_printed(rt: HostRuntime) -> Result<(), Fail> {
    let cases = [
        (Answer::Done, "ok"),
        (Answer::Number(4294967295), "ok 4294967295"),
        (Answer::Value(Some(-500)), "ok -500"),
        (Answer::Value(None), "ok -"),
        (Answer::Temperature { t: -5 }, "ok -0.5"),
        (Answer::Line { t: 150, pa: 69964 }, "ok 15.0 699.6"),
        (Answer::Refused(13), "no 13"),
        (Answer::WriteStopped((0, Some(3))), "no 11 0 3"),
        (Answer::WriteStopped((1, None)), "no 11 1 -"),
    ];
    for (answer, text) in cases {
        let shown = format!(in rt.alloc(); "{answer}")?;
        assert_eq!(rt; shown.as_str(), text);
    }
    Ok(())
}
