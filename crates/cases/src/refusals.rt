// Each refusal, by the example that the rules give of it.
use super::session::Row::Line;
use super::session::{Session, play_all};
use std::test::*;

static EXAMPLES: [Session; 13] = [
    Session(&[Line("06", "010000000F00")]),
    Session(&[Line("7F0000000000", "020000000F00")]),
    Session(&[Line("100000000001", "030000000F00")]),
    Session(&[Line("120000000002", "040000000F00")]),
    Session(&[Line("020000FF0000", "050000000F00")]),
    Session(&[
        Line("010000000004", "000000040000"),
        Line("020000000000", "060000040000"),
    ]),
    Session(&[Line("010000050000", "070000000F00")]),
    Session(&[Line("060000000000", "080000000F00")]),
    Session(&[Line("050FC0050041", "090000000F00")]),
    Session(&[
        Line("010000080000", "000000000000"),
        Line("060FC0000000", "0A0000000000"),
    ]),
    Session(&[
        Line("03000000B000", "000000000F00"),
        Line("060000000000", "0B0000000F00"),
    ]),
    Session(&[
        Line("030000009000", "000000000F00"),
        Line("050000000011", "0C0000000F00"),
    ]),
    Session(&[
        Line("010000040000", "000000000F00"),
        Line("050FC0000000", "090000000F01"),
        Line("010000000003", "0D0000000F01"),
    ]),
];

#[test]
fn each_refusal_has_its_example(rt: HostRuntime) -> Result<(), Fail> {
    play_all(&rt, &EXAMPLES)
}
