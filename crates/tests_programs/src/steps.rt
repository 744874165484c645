//! Worked programs over plain memory.

ghost use Rattle.std.specs.Prelude.{◌≡◌, ◌+◌, ◌<◌, ◌≤◌, ℕ, [], ◌∷◌, true, false, Some, IfOk};
ghost use Rattle.spc700_table.specs.Opcodes.{row_of};
ghost use Rattle.spc700_exec.specs.declared.cpu.Cpu.{Cpu};
ghost use Rattle.spc700_exec.specs.MemBus.{plain_memory as plain};
ghost use Rattle.spc700_exec.specs.Operands.{with_next_pc};
ghost use Rattle.spc700_exec.specs.Instruction.{instruction, step_outcome};
ghost use Rattle.spc700_exec.specs.Next.{next_action, driven_outcome};
ghost use Rattle.spc700_exec.specs.Accesses.{Makes, begun, First, OperandRead, DestinationWrite};
ghost use Rattle.spc700_exec.specs.Forms.{row_suits};
ghost use Rattle.spc700_exec.specs.Length.{IsShort};

use aram_core::{Aram, OutOfMemory};
use spc700_exec::{
    Cpu, MemBus, accesses_are_those_of_the_table, asking_makes_the_step,
    forms_suit_their_operations, step, steps_are_short,
};
use std::alloc::Global;
use std::test::Fail;

/// A bus over memory that is zero but for these bytes from these addresses on.
fn bus_with(alloc: Global, parts: &[(u16, &[u8])]) -> Result<MemBus, OutOfMemory>
    ensures { IfOk result (λ bus. bus.clock ≡ 0) }
{
    let image = vec![in alloc; 0u8; 65536]?;
    let mut memory = Aram::from_image(alloc, &image)?;
    for (start, bytes) in parts {
        let mut at = *start;
        for byte in *bytes {
            memory.put(at, *byte);
            at = at.wrapping_add(1);
        }
    }
    Ok(MemBus::open(memory))
}

fn start(pc: u16, x: u8) -> Cpu {
    Cpu {
        a: 0,
        x,
        y: 0,
        sp: 0xef,
        pc,
        psw: 0,
        halted: false,
    }
}

/// A step after `restart`.
fn next(cpu: &mut Cpu, bus: &mut MemBus)
    requires { bus.old.clock < 1000000 }
    ensures { bus.new.clock ≤ bus.old.clock + 32 }
{
    bus.restart();
    step(cpu, bus);
}

/// Four steps.
fn next_four(cpu: &mut Cpu, bus: &mut MemBus)
    requires { bus.old.clock < 500000 }
    ensures { bus.new.clock ≤ bus.old.clock + 128 }
{
    next(cpu, bus);
    next(cpu, bus);
    next(cpu, bus);
    next(cpu, bus);
}

#[test]
fn adds_and_branches(rt: HostRuntime) -> Result<(), Fail> {
    let mut bus = bus_with(
        rt.alloc(),
        &[(0x400, &[0xe8, 0x7f, 0x88, 0x01, 0xf0, 0x02, 0x2f, 0xfe])],
    )?;
    let mut cpu = start(0x400, 0);
    next_four(&mut cpu, &mut bus);
    assert!(rt; (cpu.a, cpu.psw, cpu.pc) == (0x80, 0xc8, 0x406));
    assert!(rt; bus.clock() == 10);
    Ok(())
}

/// The processor after one step of a program, and the clock.
fn after_step(
    alloc: Global,
    parts: &[(u16, &[u8])],
    pc: u16,
    x: u8,
) -> Result<(Cpu, u64), OutOfMemory> {
    let mut bus = bus_with(alloc, parts)?;
    let mut cpu = start(pc, x);
    next(&mut cpu, &mut bus);
    Ok((cpu, bus.clock()))
}

#[test]
fn wraps_at_the_ends_of_memory_and_of_the_direct_page(rt: HostRuntime) -> Result<(), Fail> {
    // BRA at FFFFh with its distance at 0000h.
    let (cpu, clock) = after_step(rt.alloc(), &[(0xffff, &[0x2f, 0xfe])], 0xffff, 0)?;
    assert!(rt; (cpu.pc, clock) == (0xffff, 4));

    // MOVW YA,FFh: the high byte is at 00h.
    let parts: [(u16, &[u8]); 3] = [(0x400, &[0xba, 0xff]), (0, &[0x12]), (0xff, &[0x34, 0x99])];
    let (cpu, _) = after_step(rt.alloc(), &parts, 0x400, 0)?;
    assert!(rt; (cpu.y, cpu.a) == (0x12, 0x34));

    // MOV A,[FEh+X] with X 1: the pointer stands at FFh and 00h.
    let parts: [(u16, &[u8]); 4] = [
        (0x400, &[0xe7, 0xfe]),
        (0, &[0x05]),
        (0xff, &[0x00, 0x99]),
        (0x500, &[0x5a]),
    ];
    let (cpu, _) = after_step(rt.alloc(), &parts, 0x400, 1)?;
    assert!(rt; cpu.a == 0x5a);

    // JMP [!FFFEh+X] with X 1: the pointer stands at FFFFh and 0000h.
    let parts: [(u16, &[u8]); 3] = [
        (0x400, &[0x1f, 0xfe, 0xff]),
        (0xffff, &[0x00, 0x06]),
        (0xff00, &[0x99]),
    ];
    let (cpu, _) = after_step(rt.alloc(), &parts, 0x400, 1)?;
    assert!(rt; cpu.pc == 0x600);
    Ok(())
}

#[test]
fn reads_the_direct_page_that_p_says(rt: HostRuntime) -> Result<(), Fail> {
    // MOV A,12h while P is set: the byte stands at 112h.
    let mut bus = bus_with(
        rt.alloc(),
        &[(0x400, &[0xe4, 0x12]), (0x12, &[0x99]), (0x112, &[0x5a])],
    )?;
    let mut cpu = start(0x400, 0);
    cpu.psw = 0x20;
    next(&mut cpu, &mut bus);
    assert!(rt; (cpu.a, cpu.psw, bus.clock()) == (0x5a, 0x20, 3));
    Ok(())
}

// TCALL 1 goes where the word at FFDCh points, and BRK where that at FFDEh does, which is the entry of TCALL 0.
#[test]
fn goes_through_the_table_of_calls(rt: HostRuntime) -> Result<(), Fail> {
    let mut bus = bus_with(
        rt.alloc(),
        &[
            (0x400, &[0x11]),
            (0x600, &[0x0f]),
            (0xffdc, &[0x00, 0x06, 0x00, 0x07]),
        ],
    )?;
    let mut cpu = start(0x400, 0);
    next(&mut cpu, &mut bus);
    assert!(rt; (cpu.pc, cpu.sp, bus.clock()) == (0x600, 0xed, 8));
    assert!(rt; (bus.memory().get(0x1ef), bus.memory().get(0x1ee)) == (0x04, 0x01));
    cpu.psw = 0x04;
    next(&mut cpu, &mut bus);
    // B is set and I cleared, once PC and PSW are pushed
    assert!(rt; (cpu.pc, cpu.sp, cpu.psw, bus.clock()) == (0x700, 0xea, 0x10, 16));
    assert!(rt; bus.memory().get(0x1eb) == 0x04);
    Ok(())
}

#[test]
fn calls_and_returns(rt: HostRuntime) -> Result<(), Fail> {
    let mut bus = bus_with(
        rt.alloc(),
        &[(0x400, &[0x3f, 0x00, 0x05]), (0x500, &[0x6f])],
    )?;
    let mut cpu = start(0x400, 0);
    next(&mut cpu, &mut bus);
    assert!(rt; (cpu.pc, cpu.sp, bus.clock()) == (0x500, 0xed, 8));
    assert!(rt; (bus.memory().get(0x1ef), bus.memory().get(0x1ee)) == (0x04, 0x03));
    next(&mut cpu, &mut bus);
    assert!(rt; (cpu.pc, cpu.sp, bus.clock()) == (0x403, 0xef, 13));
    Ok(())
}

#[test]
fn a_halt_passes_the_cycles_to_the_next_sample(rt: HostRuntime) -> Result<(), Fail> {
    let mut bus = bus_with(rt.alloc(), &[(0x400, &[0xff])])?;
    let mut cpu = start(0x400, 0);
    next(&mut cpu, &mut bus);
    assert!(rt; (cpu.halted, cpu.pc, bus.clock()) == (true, 0x401, 32));
    next(&mut cpu, &mut bus);
    assert!(rt; (cpu.halted, cpu.pc, bus.clock()) == (true, 0x401, 64));
    Ok(())
}

#[test]
fn a_halt_counts_from_its_start(rt: HostRuntime) -> Result<(), Fail> {
    // MOV A,00h and 14 NOPs take 31 cycles; the fetch of STOP takes the last cycle of the sample.
    let mut bus = bus_with(rt.alloc(), &[(0x400, &[0xe4, 0x00]), (0x410, &[0xff])])?;
    let mut cpu = start(0x400, 0);
    next_four(&mut cpu, &mut bus);
    next_four(&mut cpu, &mut bus);
    next_four(&mut cpu, &mut bus);
    next_four(&mut cpu, &mut bus);
    assert!(rt; (cpu.halted, cpu.pc, bus.clock()) == (true, 0x411, 32));
    Ok(())
}

/// A machine that asks after each access makes a step over plain memory.
fn asks_over_plain_memory(bus: &MemBus)
    ensures { (cpu : Cpu) → (n : ℕ) × (driven_outcome n plain bus.now.clock 0 (next_action cpu) [] 0 bus.now ≡ Some (step_outcome plain cpu bus.now)) }
{
    asking_makes_the_step(bus);
}

/// MOV d,A reads the byte of its operand, and then writes to the direct page.
fn a_move_reads_and_writes()
    ensures { (cpu : Cpu) → Makes (row_of 0xc4) cpu (begun cpu) (OperandRead First ∷ DestinationWrite First ∷ []) (instruction (row_of 0xc4) cpu) }
{
    accesses_are_those_of_the_table();
}

/// The forms of any opcode suit its operation.
fn forms_suit(op: u8)
    ensures { row_suits (row_of op) ≡ true }
{
    forms_suit_their_operations();
}

/// After its opcode an instruction makes at most 5 accesses.
fn an_instruction_is_short()
    ensures { (cpu : Cpu) (op : ℕ) → IsShort 5 (instruction (row_of op) (with_next_pc (record cpu { halted = false }))) }
{
    steps_are_short();
}

/// Each of the four functions above has its clause from the law that it calls.
#[test]
fn laws_of_steps_say_what_they_are_for(rt: HostRuntime) -> Result<(), Fail> {
    let bus = bus_with(rt.alloc(), &[])?;
    asks_over_plain_memory(&bus);
    a_move_reads_and_writes();
    forms_suit(0xc4);
    an_instruction_is_short();
    assert!(rt; bus.clock() == 0);
    Ok(())
}
