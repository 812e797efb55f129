// The program's task: calibration rows of some buoys, and one telegram that goes in by blocks.
use life::{Call, PortCall, RowCall, SetUpCall, WalkCall};
use registers::{InputStep, Item, OutputStep};
use table::Search;

// The upper part of the rack is a device, the lower one a bit-plane table behind a fence.
pub const WIDTH: u32 = 3;

pub const LOWER_HIDDEN: u32 = 60;

// The first row of the whole rack is out of use. Its members: what is left of the device, and the
// four rows of the bit-plane table.
pub const HIDDEN: u32 = 1;

pub const CUT: [u32; 2] = [0, 2727];

// Each call stands in full, since the value of a constant cannot call a function.
pub const CALLS: [Call; 38] = [
    // Segment 0 is the buoy, segment 1 its calibration. The word on segment 0 comes last, since it
    // makes the row valid.
    Call::OnRow(RowCall::Write {
        row: 0,
        segment: 1,
        word: 0x3f80,
    }),
    Call::OnRow(RowCall::Write {
        row: 0,
        segment: 0,
        word: 0x0b17,
    }),
    Call::OnRow(RowCall::Write {
        row: 1,
        segment: 1,
        word: 0x3f7e,
    }),
    Call::OnRow(RowCall::Write {
        row: 1,
        segment: 0,
        word: 0x0b18,
    }),
    Call::OnRow(RowCall::Write {
        row: 2,
        segment: 1,
        word: 0x3f83,
    }),
    Call::OnRow(RowCall::Write {
        row: 2,
        segment: 0,
        word: 0x0b17,
    }),
    Call::OnRow(RowCall::Write {
        row: 2728,
        segment: 1,
        word: 0x3f7e,
    }),
    Call::OnRow(RowCall::Write {
        row: 2728,
        segment: 0,
        word: 0x0b17,
    }),
    // By hand first: rows of the buoy, then of these the ones with one calibration.
    Call::Search(Search {
        key: 0x0b17,
        mask: 0,
        segment: 0,
        head: true,
        access: false,
    }),
    Call::Search(Search {
        key: 0x3f7e,
        mask: 0,
        segment: 1,
        head: false,
        access: true,
    }),
    Call::OnWalk(WalkCall::NextHit),
    Call::OnRow(RowCall::Marks { row: 2728 }),
    // The same telegram by 16-bit blocks: a search after the second block, and one after the fourth.
    Call::OnSetUp(SetUpCall::BlockWidth { bits: 16 }),
    Call::OnSetUp(SetUpCall::Blocks {
        channel: 0,
        take: 0b1111,
        start: 0b1010,
    }),
    Call::OnSetUp(SetUpCall::InputStep {
        channel: 0,
        step: 0,
        to: InputStep {
            mask: 0,
            shift: 0,
            segment: 0,
            head: true,
            access: false,
            end: false,
        },
    }),
    Call::OnSetUp(SetUpCall::InputStep {
        channel: 0,
        step: 1,
        to: InputStep {
            mask: 0xffff_0000,
            shift: 0,
            segment: 1,
            head: false,
            access: false,
            end: true,
        },
    }),
    Call::OnSetUp(SetUpCall::OutputStep {
        channel: 0,
        step: 0,
        to: OutputStep {
            item: Item::Status,
            end: false,
        },
    }),
    Call::OnSetUp(SetUpCall::OutputStep {
        channel: 0,
        step: 1,
        to: OutputStep {
            item: Item::Address,
            end: false,
        },
    }),
    Call::OnSetUp(SetUpCall::OutputStep {
        channel: 0,
        step: 2,
        to: OutputStep {
            item: Item::Segment(1),
            end: false,
        },
    }),
    Call::OnSetUp(SetUpCall::OutputStep {
        channel: 0,
        step: 3,
        to: OutputStep {
            item: Item::Key(0),
            end: true,
        },
    }),
    Call::OnPort(PortCall::StartInput {
        channel: 0,
        step: 0,
    }),
    Call::OnPort(PortCall::Block { value: 0 }),
    Call::OnPort(PortCall::Block { value: 0x0b17 }),
    Call::OnPort(PortCall::Block { value: 0 }),
    Call::OnPort(PortCall::Block { value: 0x3f80 }),
    // After the end of its sequence a block is ignored.
    Call::OnPort(PortCall::Block { value: 0x0b18 }),
    Call::OnPort(PortCall::StartOutput {
        channel: 0,
        step: 0,
    }),
    Call::OnPort(PortCall::Word),
    Call::OnPort(PortCall::Word),
    Call::OnPort(PortCall::Word),
    Call::OnPort(PortCall::Word),
    Call::OnPort(PortCall::Word),
    // Every row of the buoy: in the device, and across the border of the two members.
    Call::Search(Search {
        key: 0x0b17,
        mask: 0,
        segment: 0,
        head: true,
        access: false,
    }),
    Call::OnWalk(WalkCall::NextHit),
    Call::OnWalk(WalkCall::NextHit),
    Call::OnWalk(WalkCall::NextHit),
    // No such row, and no such segment: the rack is as wide as its narrower part.
    Call::OnRow(RowCall::Read {
        row: 2731,
        segment: 2,
    }),
    Call::OnRow(RowCall::Read {
        row: 2728,
        segment: 2,
    }),
];
