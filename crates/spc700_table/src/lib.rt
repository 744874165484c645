//! The opcodes of the SPC700: what each does, its operands, its length and its cycles.
#![tactic(auto)]

mod branches;
mod laws;
mod mnemonics;
mod rows;

ghost use Rattle.std.specs.Prelude.{◌≡◌, ◌≤◌};
ghost use Rattle.spc700_table.specs.Opcodes.{row_of, length_of, operand_bytes, is_in_text_order};

pub use branches::branch_target;
pub use laws::{bits_and_entries_are_in_range, branches_have_text_order, rows_differ};
pub use mnemonics::mnemonic;
use rows::ROWS;

/// What an instruction does: one variant for each mnemonic (Anomie's SPC700 Doc, the instruction list).
#[derive(Clone, Copy, Debug, PartialEq, Eq)]
pub enum Kind {
    /// NOP: nothing.
    Nop,
    /// BPL: branch where N is clear.
    Bpl,
    /// CLRP: clears P.
    Clrp,
    /// BMI: branch where N is set.
    Bmi,
    /// SETP: sets P.
    Setp,
    /// BVC: branch where V is clear.
    Bvc,
    /// CLRC: clears C.
    Clrc,
    /// BVS: branch where V is set.
    Bvs,
    /// SETC: sets C.
    Setc,
    /// BCC: branch where C is clear.
    Bcc,
    /// EI: sets I.
    Ei,
    /// BCS: branch where C is set.
    Bcs,
    /// DI: clears I.
    Di,
    /// BNE: branch where Z is clear.
    Bne,
    /// CLRV: clears V and H.
    Clrv,
    /// BEQ: branch where Z is set.
    Beq,
    /// TCALL: call through the table at the end of memory.
    Tcall,
    /// SET1: sets a bit of memory.
    Set1,
    /// CLR1: clears a bit of memory.
    Clr1,
    /// BBS: branch where a bit of memory is set.
    Bbs,
    /// BBC: branch where a bit of memory is clear.
    Bbc,
    /// OR.
    Or,
    /// AND.
    And,
    /// EOR: exclusive or.
    Eor,
    /// CMP: compares.
    Cmp,
    /// ADC: adds with the carry.
    Adc,
    /// SBC: subtracts with the carry.
    Sbc,
    /// MOV.
    Mov,
    /// OR1: C or a bit of memory.
    Or1,
    /// DECW: a word less 1.
    Decw,
    /// INCW: a word and 1.
    Incw,
    /// AND1: C and a bit of memory.
    And1,
    /// CMPW: compares words.
    Cmpw,
    /// ADDW: adds words, without the carry.
    Addw,
    /// EOR1: C exclusive or a bit of memory.
    Eor1,
    /// SUBW: subtracts words, without the carry.
    Subw,
    /// MOV1: moves a bit from or to C.
    Mov1,
    /// MOVW: moves a word from or to YA.
    Movw,
    /// NOT1: turns over a bit of memory.
    Not1,
    /// ASL: shifts left, 0 comes in.
    Asl,
    /// ROL: shifts left, C comes in.
    Rol,
    /// LSR: shifts right, 0 comes in.
    Lsr,
    /// ROR: shifts right, C comes in.
    Ror,
    /// DEC: a byte less 1.
    Dec,
    /// INC: a byte and 1.
    Inc,
    /// PUSH.
    Push,
    /// NOTC: turns over C.
    Notc,
    /// TSET1: sets in memory the bits of A.
    Tset1,
    /// CBNE: branch where A differs from a byte.
    Cbne,
    /// TCLR1: clears in memory the bits of A.
    Tclr1,
    /// DBNZ: a byte less 1, and a branch where it isn't 0 then.
    Dbnz,
    /// POP.
    Pop,
    /// DIV: YA by X.
    Div,
    /// DAS: adjusts A after a decimal subtraction.
    Das,
    /// BRK: software interrupt.
    Brk,
    /// JMP.
    Jmp,
    /// BRA: branch at all times.
    Bra,
    /// CALL.
    Call,
    /// PCALL: call in page FFh.
    Pcall,
    /// RET: return from a call.
    Ret,
    /// RETI: return from an interrupt.
    Reti,
    /// XCN: exchanges the digits of A.
    Xcn,
    /// MUL: Y times A.
    Mul,
    /// DAA: adjusts A after a decimal addition.
    Daa,
    /// SLEEP: halts.
    Sleep,
    /// STOP: halts.
    Stop,
}

/// Where an operand stands: one variant for each addressing form (Anomie's SPC700 Doc, the addressing modes).
#[derive(Clone, Copy, Debug, PartialEq, Eq)]
pub enum Form {
    /// No operand.
    None,
    /// The register A.
    A,
    /// The register X.
    X,
    /// The register Y.
    Y,
    /// The word YA: Y is its high byte, A its low byte.
    Ya,
    /// The status PSW.
    Psw,
    /// The stack pointer.
    Sp,
    /// The flag C.
    Carry,
    /// `#i`: the byte itself.
    Imm,
    /// `d`: a byte of the direct page.
    Direct,
    /// `d+X`: the byte X further on in the direct page, which wraps.
    DirectX,
    /// `d+Y`: the byte Y further on in the direct page, which wraps.
    DirectY,
    /// `!a`: an address.
    Abs,
    /// `!a+X`: the address X further on.
    AbsX,
    /// `!a+Y`: the address Y further on.
    AbsY,
    /// `(X)`: the byte X of the direct page.
    PtrX,
    /// `(Y)`: the byte Y of the direct page.
    PtrY,
    /// `(X)+`: the byte X of the direct page, and X goes on by 1.
    PtrXInc,
    /// `[d+X]`: the address that stands at d + X in the direct page.
    IndX,
    /// `[d]+Y`: the address Y further on than that which stands at d in the direct page.
    IndY,
    /// `[!a+X]`: the address that stands at a + X.
    AbsPtrX,
    /// `m.b`: a bit of a byte below 2000h; the operand's high three bits are its number.
    Bit,
    /// `/m.b`: the complement of that bit.
    NotBit,
    /// `d.b`: a bit, 0 to 7, of a byte of the direct page.
    DirectBit(u8),
    /// `r`: a signed distance from the address after the instruction.
    Rel,
    /// `u`: a byte of page FFh.
    Upper,
    /// The entry, 0 to 15, of TCALL's table.
    Table(u8),
}

/// The row of an opcode in the instruction list.
#[derive(Clone, Copy, Debug, PartialEq, Eq)]
pub struct OpRow {
    /// What the instruction does.
    pub kind: Kind,
    /// Its first operand: the destination where there are two. BBS and BBC have their bit here.
    pub first: Form,
    /// Its second operand: the source, or the distance of a branch that has a first operand.
    pub second: Form,
    /// Its cycles where no branch is taken; 0 where the processor halts.
    pub cycles: u8,
    /// Its cycles where a branch is taken; the same as `cycles` without a condition.
    pub taken: u8,
}

/// The row of an opcode.
// In line, so that of a constant opcode it is a constant.
#[inline]
pub fn row(op: u8) -> OpRow
    ensures { result ≡ row_of op }
{
    ROWS[op as usize]
}

/// Whether the bytes of an instruction's operands stand in the order of its text, the first operand's before the second's.
/// They do where the second is the distance of a branch; elsewhere the second's stand before the first's.
// In line, so that of a constant row it is a constant.
#[inline]
pub fn is_in_text_order(row: &OpRow) -> bool
    ensures { result ≡ is_in_text_order row.now }
{
    matches!(row.second, Form::Rel)
}

/// How many bytes an operand has after the opcode: 0 to 2.
pub fn byte_count(form: Form) -> u8
    ensures count { result ≡ operand_bytes form }
    ensures few { result ≤ 2 }
{
    match form {
        Form::Imm
        | Form::Direct
        | Form::DirectX
        | Form::DirectY
        | Form::IndX
        | Form::IndY
        | Form::DirectBit(_)
        | Form::Rel
        | Form::Upper => 1,
        Form::Abs | Form::AbsX | Form::AbsY | Form::AbsPtrX | Form::Bit | Form::NotBit => 2,
        Form::None
        | Form::A
        | Form::X
        | Form::Y
        | Form::Ya
        | Form::Psw
        | Form::Sp
        | Form::Carry
        | Form::PtrX
        | Form::PtrY
        | Form::PtrXInc
        | Form::Table(_) => 0,
    }
}

/// How many bytes the instruction of an opcode has, the opcode among them: 1 to 3.
pub fn length(op: u8) -> u8
    ensures length { result ≡ length_of op }
    ensures least { 1 ≤ result }
    ensures most { result ≤ 3 }
{
    let row = row(op);
    1 + byte_count(row.first) + byte_count(row.second)
}
