// Frames, strips and limits as they come up.
ghost use Rattle.dma.specs.Answers.{answer_of};
ghost use Rattle.dma.specs.Table.{DescriptorsAfter, table_descriptors};

use crate::buffer::{DmaBuffer, Tagged, View};
use crate::channel::{Channel, Request};
use crate::counting::CountingChannel;
use crate::error::DmaError;
use crate::frame::FrameBuffer;
use crate::load::Load;
use crate::strips::StripBuffer;
use crate::table::TableChannel;
use std::alloc::{AllocError, Global};
use std::test::Fail;

// The load of a frame of so many bytes.
fn frame_load(heap: Global, len: usize) -> Result<Load, AllocError> {
    let bytes = vec![in heap; 0u8; len]?;
    let frame = FrameBuffer {
        bytes: bytes.as_slice(),
        tag: 1,
    };
    Ok(frame.prepare())
}

// The number of a refusal, or 0: these tests are of the numbers.
fn number(answer: Result<(), DmaError>) -> u32 {
    match answer {
        Ok(()) => 0,
        Err(error) => error.number(),
    }
}

// Asks a table channel: a caller knows which descriptors that writes.
fn handled(channel: &mut TableChannel, request: Request) -> Result<(), DmaError>
    ensures { DescriptorsAfter request (answer_of result) (table_descriptors channel.old) (table_descriptors channel.new) }
{
    channel.handle(request)
}

#[test]
fn frames_take_descriptors(rt: HostRuntime) -> Result<(), Fail> {
    let heap = rt.alloc();
    assert_eq!(rt; frame_load(heap, 4_092)?.count, 1);
    assert_eq!(rt; frame_load(heap, 4_093)?.count, 2);
    let mut channel = TableChannel::new();
    assert_eq!(rt; number(channel.prepare(frame_load(heap, 0)?)), 5);
    assert_eq!(rt; number(channel.prepare(frame_load(heap, 1_047_552)?)), 0);
    assert_eq!(rt; channel.load().count, 256);
    assert_eq!(rt; number(channel.start()), 0);
    assert!(rt; !channel.has_error());
    assert_eq!(rt; number(channel.prepare(frame_load(heap, 1_047_553)?)), 6);
    Ok(())
}

#[test]
fn limits_come_to_the_nearer_end(rt: HostRuntime) {
    assert_eq!(rt; CountingChannel::new(0).limit(), 1);
    assert_eq!(rt; CountingChannel::new(7).limit(), 7);
    assert_eq!(rt; CountingChannel::new(70_000).limit(), 65_535);
}

#[test]
fn strips_start_where_the_first_is_free(rt: HostRuntime) {
    let mut channel = TableChannel::new();
    assert_eq!(rt;
        number(channel.prepare(StripBuffer::new(3, 0, 1).prepare())),
        0
    );
    assert_eq!(rt; number(channel.start()), 7);
    assert_eq!(rt;
        number(channel.prepare(StripBuffer::new(3, 1, 1).prepare())),
        0
    );
    assert!(rt; !channel.has_error());
    assert_eq!(rt; number(channel.start()), 0);
    assert!(rt; channel.has_error());
}

#[test]
fn strips_are_taken_once(rt: HostRuntime) {
    let mut view = StripBuffer::new(3, 1, 9).into_view();
    assert!(rt; view.take());
    assert!(rt; view.take());
    assert!(rt; view.take());
    assert!(rt; !view.take());
    let strips = <StripBuffer as DmaBuffer>::from_view(view);
    assert_eq!(rt; strips.taken, 3);
    assert_eq!(rt; strips.tag(), 9);
}

#[test]
fn a_refused_load_writes_no_descriptor(rt: HostRuntime) {
    let mut channel = TableChannel::new();
    assert_eq!(rt;
        number(handled(&mut channel, Request::Prepare(Load::new(3, 2)))),
        0
    );
    assert_eq!(rt;
        number(handled(&mut channel, Request::Prepare(Load::new(257, 257)))),
        6
    );
    assert_eq!(rt; channel.load(), Load::new(3, 2));
}
