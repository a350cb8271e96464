// Page words and their parts, both ways.
use mapper::{PageParts, join, split};
use std::process::Abort;
use std::test::*;
use terms::Refusal;

// A word, and its parts: mapped, read-only, socket, device page. Not a `PageParts`, so that a row is a line.
#[derive(Clone, Copy)]
struct Split(u16, bool, bool, u8, u16);

static WORDS: [Split; 8] = [
    Split(0x0000, false, false, 0, 0x000),
    Split(0x802A, true, false, 0, 0x02A),
    Split(0xD000, true, true, 1, 0x000),
    Split(0xAFFF, true, false, 2, 0xFFF),
    Split(0xB800, true, false, 3, 0x800),
    Split(0x4001, false, true, 0, 0x001),
    Split(0x7FFF, false, true, 3, 0xFFF),
    Split(0xFFFF, true, true, 3, 0xFFF),
];

#[test]
fn a_word_and_its_parts_are_one_for_one(rt: HostRuntime) -> Result<(), Fail> {
    for word in &WORDS {
        check_word(&rt, *word)?;
    }
    Ok(())
}

fn check_word(rt: &impl Abort, expected: Split) -> Result<(), Fail> {
    let Split(word, mapped, readonly, socket, page) = expected;
    let parts = PageParts {
        mapped,
        readonly,
        socket,
        page,
    };
    assert_eq!(rt; split(word), parts, "{word}");
    assert_eq!(rt; join(parts), Ok(word), "{word}");
    Ok(())
}

#[test]
fn a_fifth_socket_and_a_page_too_many_are_refused(rt: HostRuntime) -> Result<(), Fail> {
    assert!(rt; is_refused(4, 0x000));
    assert!(rt; is_refused(0, 0x1000));
    Ok(())
}

// Whether there is no word for that socket and device page.
fn is_refused(socket: u8, page: u16) -> bool {
    let parts = PageParts {
        mapped: true,
        readonly: false,
        socket,
        page,
    };
    join(parts) == Err(Refusal::IndexTooLarge)
}
