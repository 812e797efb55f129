// Blocks that come in, words that go out, and what the ports refuse, over a bit-plane table.
use crate::commands::filled;
use ports::{AtStep, BlockAnswer, PortFault, block, word};
use processor::CommandFault;
use registers::{InputStep, Item, OutputStep, SetUpFault, StartFault};
use std::test::Fail;
use table::{Place, Refusal, TableFault};

const fn step(segment: u32, head: bool, end: bool) -> InputStep {
    InputStep {
        mask: 0,
        shift: 0,
        segment,
        head,
        access: false,
        end,
    }
}

#[test]
fn blocks_of_eight_bits(rt: HostRuntime) -> Result<(), Fail> {
    let mut processor = filled()?;
    processor.registers.set_block_width(8)?;
    processor.registers.set_blocks(0, 0xffff_ffff_ffff_ffff, 0)?;
    processor
        .registers
        .set_input_step(0, 0, step(0, true, true))?;
    assert_eq!(rt; block(&mut processor, 1), Err(PortFault::NotStarted));
    processor.registers.start_input(0, 0)?;
    assert_eq!(rt; block(&mut processor, 255), Ok(BlockAnswer::Taken));
    assert_eq!(rt; block(&mut processor, 256), Err(PortFault::TooWide(0)));
    for _ in 0..63 {
        assert_eq!(rt; block(&mut processor, 7), Ok(BlockAnswer::Taken));
    }
    assert_eq!(rt; block(&mut processor, 256), Err(PortFault::TooWide(0)));
    assert_eq!(rt; block(&mut processor, 7), Err(PortFault::BlocksGone(0)));
    assert_eq!(rt; PortFault::NotStarted.number(), 11);
    assert_eq!(rt; PortFault::TooWide(0).number(), 13);
    assert_eq!(rt; PortFault::BlocksGone(0).number(), 14);
    assert_eq!(rt; PortFault::BlocksGone(0).place(), Place::Port);
    Ok(())
}

// Blocks 1, 2, 4, 5, 6 and 7 are taken, searches run at 2, 5 and 7, from step 2 on.
#[test]
fn blocks_of_sixteen_bits(rt: HostRuntime) -> Result<(), Fail> {
    let mut processor = filled()?;
    processor.registers.set_block_width(16)?;
    processor.registers.set_blocks(1, 0b1111_0110, 0b1010_0100)?;
    processor
        .registers
        .set_input_step(1, 2, step(0, true, false))?;
    processor
        .registers
        .set_input_step(1, 3, step(1, false, false))?;
    processor
        .registers
        .set_input_step(1, 4, step(1, true, true))?;
    processor.registers.start_input(1, 2)?;
    assert_eq!(rt; block(&mut processor, 99), Ok(BlockAnswer::Taken));
    assert_eq!(rt; block(&mut processor, 0), Ok(BlockAnswer::Taken));
    assert_eq!(rt; block(&mut processor, 5), Ok(BlockAnswer::Searched));
    assert_eq!(rt; processor.registers().found.address, Some(0));
    assert_eq!(rt; block(&mut processor, 98), Ok(BlockAnswer::Taken));
    assert_eq!(rt; block(&mut processor, 0), Ok(BlockAnswer::Taken));
    assert_eq!(rt; block(&mut processor, 9), Ok(BlockAnswer::Searched));
    assert_eq!(rt; processor.registers().found.address, Some(2));
    assert_eq!(rt; block(&mut processor, 3), Ok(BlockAnswer::Taken));
    assert_eq!(rt; block(&mut processor, 4), Ok(BlockAnswer::Searched));
    assert_eq!(rt; processor.registers().found.address, None);
    assert_eq!(rt; block(&mut processor, 70_000), Ok(BlockAnswer::Ignored));
    let input = processor.registers().input;
    assert_eq!(rt; input.keys[2], 5);
    assert_eq!(rt; input.keys[3], 9);
    assert_eq!(rt; input.keys[4], 0x0003_0004);
    assert!(rt; input.hits[2] && input.hits[3] && !input.hits[4]);
    Ok(())
}

#[test]
fn refused_set_ups_and_starts(rt: HostRuntime) -> Result<(), Fail> {
    let mut registers = filled()?.registers();
    assert_eq!(rt;
        registers.set_input_step(2, 9, step(9, true, true)),
        Err(SetUpFault::OutOfRange(2))
    );
    assert_eq!(rt;
        registers.set_input_step(1, 9, step(7, true, true)),
        Err(SetUpFault::OutOfRange(9))
    );
    assert_eq!(rt;
        registers.set_input_step(1, 7, step(8, true, true)),
        Err(SetUpFault::OutOfRange(8))
    );
    assert_eq!(rt;
        registers.set_block_width(31),
        Err(SetUpFault::OutOfRange(31))
    );
    let ninth = OutputStep {
        item: Item::Key(8),
        end: true,
    };
    assert_eq!(rt;
        registers.set_output_step(0, 0, ninth),
        Err(SetUpFault::OutOfRange(8))
    );
    assert_eq!(rt; registers.start_input(0, 8), Err(StartFault::OutOfRange(8)));
    assert_eq!(rt; registers.start_input(0, 0), Err(StartFault::NoHead));
    assert_eq!(rt;
        registers.set_input_step(0, 0, step(0, true, false)),
        Ok(())
    );
    assert_eq!(rt; registers.start_input(0, 0), Err(StartFault::NoEnd));
    assert_eq!(rt; registers.start_output(0, 0), Err(StartFault::NoEnd));
    assert_eq!(rt;
        registers.set_input_step(0, 7, step(0, false, true)),
        Ok(())
    );
    assert_eq!(rt; registers.start_input(0, 0), Ok(()));
    assert_eq!(rt; registers.set_block_width(8), Err(SetUpFault::SequenceOpen));
    assert_eq!(rt;
        registers.set_block_width(9),
        Err(SetUpFault::OutOfRange(9))
    );
    assert_eq!(rt; SetUpFault::OutOfRange(9).number(), 7);
    assert_eq!(rt; SetUpFault::SequenceOpen.number(), 8);
    assert_eq!(rt; SetUpFault::SequenceOpen.place(), Place::SetUp);
    assert_eq!(rt; StartFault::NoHead.number(), 9);
    assert_eq!(rt; StartFault::NoEnd.number(), 10);
    assert_eq!(rt; StartFault::NoEnd.place(), Place::Start);
    Ok(())
}

// What the table or the command refuses comes up whole, with the step; the step stays next.
#[test]
fn refused_steps_stay_next(rt: HostRuntime) -> Result<(), Fail> {
    let mut processor = filled()?;
    processor.registers.set_blocks(0, 1, 1)?;
    processor
        .registers
        .set_input_step(0, 3, step(6, true, true))?;
    processor.registers.start_input(0, 3)?;
    let refused = PortFault::InCommand(AtStep {
        step: 3,
        fault: CommandFault::InTable(TableFault::Segment(6)),
    });
    assert_eq!(rt; block(&mut processor, 5), Err(refused));
    assert_eq!(rt; block(&mut processor, 5), Err(refused));
    assert_eq!(rt; refused.number(), 4);
    assert_eq!(rt; refused.place(), Place::Table);
    let last = OutputStep {
        item: Item::Segment(1),
        end: true,
    };
    processor.registers.set_output_step(1, 5, last)?;
    processor.registers.start_output(1, 5)?;
    let missing = PortFault::InCommand(AtStep {
        step: 5,
        fault: CommandFault::NoHitAddress,
    });
    assert_eq!(rt; word(&mut processor), Err(missing));
    assert_eq!(rt; missing.number(), 5);
    assert_eq!(rt; missing.place(), Place::Command);
    processor.registers.stop();
    assert_eq!(rt; word(&mut processor), Err(PortFault::NotStarted));
    assert_eq!(rt; PortFault::HasEnded.number(), 12);
    Ok(())
}
