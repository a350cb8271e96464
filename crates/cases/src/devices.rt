// Edges of the devices as the processor meets them: write protection, and what a lost power line leaves.
use super::session::Row::Line;
use super::session::{Session, play_all};
use std::test::*;

static PROTECTION: [Session; 3] = [
    // Of card A, place 2,047 is the last that is protected. A page that is writable does not open it.
    Session(&[
        Line("03000000A000", "000000000F00"),
        Line("050007FF0011", "0C0000000F00"),
        Line("050008000011", "000000000F00"),
        Line("060007FF0000", "000000000F00"),
        Line("060008000000", "000011000F00"),
        Line("0200000C0000", "0000FF000F00"),
        Line("0200000D0000", "000007000F00"),
        Line("0200000E0000", "000000000F00"),
    ]),
    // A page that is read-only closes a place that is open in the card.
    Session(&[
        Line("03000000E000", "000000000F00"),
        Line("050008000011", "090000000F00"),
        Line("060008000000", "000000000F00"),
    ]),
    // The violation's address stands in three registers; unmasked, its cause is raised.
    Session(&[
        Line("03000025A000", "000000000F00"),
        Line("010000040000", "000000000F00"),
        Line("050945670011", "0C0000000F01"),
        Line("0200000C0000", "000067000F01"),
        Line("0200000D0000", "000045000F01"),
        Line("0200000E0000", "000009000F01"),
        Line("020000050000", "000020000F00"),
    ]),
];

static POWER: [Session; 4] = [
    // Suspend keeps RAM's line and so its bytes, and waking takes none. They are lost when the line falls.
    Session(&[
        Line("030000008000", "000000000F00"),
        Line("05000001005A", "000000000F00"),
        Line("010000000003", "000000030200"),
        Line("130000000001", "000000000F00"),
        Line("060000010000", "00005A000F00"),
        Line("01000008000D", "000000000D00"),
        Line("060000010000", "0A0000000D00"),
        Line("01000008000F", "000000000F00"),
        Line("060000010000", "0000FF000F00"),
    ]),
    // Off has no line: both chips lose their bytes, and the battery of card A keeps its own.
    Session(&[
        Line("030000008000", "000000000F00"),
        Line("03000001A000", "000000000F00"),
        Line("05000002005A", "000000000F00"),
        Line("05000003005B", "000000000F00"),
        Line("050048000011", "000000000F00"),
        Line("010000000004", "000000040000"),
        Line("130000000001", "000000000F00"),
        Line("060000020000", "0000FF000F00"),
        Line("060000030000", "0000FF000F00"),
        Line("060048000000", "000011000F00"),
    ]),
    // Waking takes RAM's bytes where On has no line for it and Suspend has.
    Session(&[
        Line("010000000001", "000000010F00"),
        Line("01000008000D", "000000010F00"),
        Line("030000008000", "000000010F00"),
        Line("05000001005A", "000000010F00"),
        Line("010000000003", "000000030200"),
        Line("130000000001", "000000000D00"),
        Line("010000000001", "000000010F00"),
        Line("060000010000", "0000FF010F00"),
    ]),
    // A reset leaves the bytes, and unmaps the pages.
    Session(&[
        Line("030000008000", "000000000F00"),
        Line("05000001005A", "000000000F00"),
        Line("000000000000", "000000000F00"),
        Line("060000010000", "080000000F00"),
        Line("030000008000", "000000000F00"),
        Line("060000010000", "00005A000F00"),
    ]),
];

#[test]
fn a_write_needs_an_open_page_and_an_open_place(rt: HostRuntime) -> Result<(), Fail> {
    play_all(&rt, &PROTECTION)
}

#[test]
fn ram_is_lost_when_its_line_falls(rt: HostRuntime) -> Result<(), Fail> {
    play_all(&rt, &POWER)
}
