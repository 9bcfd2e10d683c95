// Boards on examples.
use crate::error::ImageError;
use crate::field::Field;
use crate::image::{ImageBoard, check_image};
use crate::inspect::{Inspect, clock_in_force};
use crate::interface::Board;
use crate::register::{Register, Side};
use crate::sources::Sources;
use crate::word_board::WordBoard;

// A word with one field put to 1.
fn one(field: Field) -> u32 {
    field.put(0, 1)
}

// Marks both resets of the panel and writes start.
fn start_panel<B: Board>(board: &mut B) {
    board.write(Register::LcdUser, one(Field::LcdReset));
    board.write(Register::LcdMisc, one(Field::LcdAfifoReset));
    board.write(Register::LcdUser, one(Field::LcdStart));
}

#[test]
fn a_run_takes_its_span(rt: HostRuntime) {
    let mut board = WordBoard::new(Sources::USUAL, 3);
    start_panel(&mut board);
    assert_eq!(rt; board.read(Register::LcdUser), one(Field::LcdStart));
    assert_eq!(rt; board.poll(Side::Camera), true);
    assert_eq!(rt; board.poll(Side::Panel), false);
    assert_eq!(rt; board.poll(Side::Panel), false);
    assert_eq!(rt; board.poll(Side::Panel), true);
    assert_eq!(rt; board.read(Register::LcdUser), 0);
}

#[test]
fn a_span_outside_counts_as_the_nearer_end(rt: HostRuntime) {
    let mut shortest = WordBoard::new(Sources::USUAL, 0);
    start_panel(&mut shortest);
    assert_eq!(rt; shortest.poll(Side::Panel), true);
    let mut longest = WordBoard::new(Sources::USUAL, 4_000_000_000);
    start_panel(&mut longest);
    for _ in 1..1_000_000 {
        assert_eq!(rt; longest.poll(Side::Panel), false);
    }
    assert_eq!(rt; longest.poll(Side::Panel), true);
}

#[test]
fn an_image_has_34_words(rt: HostRuntime) {
    assert_eq!(rt; check_image(&[0; 33]), Err(ImageError::WrongSize));
    assert_eq!(rt; check_image(&[0; 34]), Ok(()));
    assert_eq!(rt; check_image(&[0; 35]), Err(ImageError::WrongSize));
    assert_eq!(rt; ImageError::WrongSize.number(), 10);
}

#[test]
fn an_image_goes_on_where_it_was_left(rt: HostRuntime) {
    let mut words = [u32::MAX; 34];
    let mut first = ImageBoard::new(&mut words, Sources::USUAL);
    // 240 MHz, divided by 10, for the panel.
    first.write(
        Register::LcdClock,
        Field::LcdClkSel.put(Field::LcdClkmDivNum.put(0, 10), 2),
    );
    first.write(Register::LcdUser, one(Field::LcdUpdate));
    start_panel(&mut first);
    let mut second = ImageBoard::new(&mut words, Sources::USUAL);
    assert_eq!(rt; clock_in_force(&second, Side::Panel), 24_000_000);
    assert_eq!(rt; second.control(Side::Panel).start, true);
    assert_eq!(rt; second.poll(Side::Panel), false);
    second.write(Register::LcdUser, 0);
    assert_eq!(rt; second.poll(Side::Panel), true);
    assert_eq!(rt; second.in_force(Register::CamRgbYuv), 0x8000_0000);
    assert_eq!(rt; words[12], u32::MAX);
    assert_eq!(rt; words[31], u32::MAX);
    assert_eq!(rt; words[33], 3);
}
