//! The mnemonics of the instructions.
ghost use Rattle.std.specs.Prelude.{◌≡◌};
ghost use Rattle.spc700_table.specs.Mnemonics.{mnemonic_of};

use crate::Kind;

/// A match that has several kinds with their mnemonics on a line.
macro_rules! mnemonics {
    ($kind:expr; $($name:ident => $text:literal),*) => {
        match $kind {
            $(Kind::$name => $text,)*
        }
    };
}

/// The mnemonic of a kind of instruction, in capitals: 2 to 5 letters and digits (Anomie's SPC700 Doc, the instruction list).
#[tactic(auto, unfolding(crate::specs::Mnemonics::mnemonic_of))]
pub fn mnemonic(kind: Kind) -> &'static [u8]
    ensures { result.now ≡ mnemonic_of kind }
{
    mnemonics!(
        kind;
        Nop => b"NOP", Bpl => b"BPL", Clrp => b"CLRP", Bmi => b"BMI", Setp => b"SETP",
        Bvc => b"BVC", Clrc => b"CLRC", Bvs => b"BVS", Setc => b"SETC", Bcc => b"BCC", Ei => b"EI",
        Bcs => b"BCS", Di => b"DI", Bne => b"BNE", Clrv => b"CLRV", Beq => b"BEQ",
        Tcall => b"TCALL", Set1 => b"SET1", Clr1 => b"CLR1", Bbs => b"BBS", Bbc => b"BBC",
        Or => b"OR", And => b"AND", Eor => b"EOR", Cmp => b"CMP", Adc => b"ADC", Sbc => b"SBC",
        Mov => b"MOV", Or1 => b"OR1", Decw => b"DECW", Incw => b"INCW", And1 => b"AND1",
        Cmpw => b"CMPW", Addw => b"ADDW", Eor1 => b"EOR1", Subw => b"SUBW", Mov1 => b"MOV1",
        Movw => b"MOVW", Not1 => b"NOT1", Asl => b"ASL", Rol => b"ROL", Lsr => b"LSR",
        Ror => b"ROR", Dec => b"DEC", Inc => b"INC", Push => b"PUSH", Notc => b"NOTC",
        Tset1 => b"TSET1", Cbne => b"CBNE", Tclr1 => b"TCLR1", Dbnz => b"DBNZ", Pop => b"POP",
        Div => b"DIV", Das => b"DAS", Brk => b"BRK", Jmp => b"JMP", Bra => b"BRA", Call => b"CALL",
        Pcall => b"PCALL", Ret => b"RET", Reti => b"RETI", Xcn => b"XCN", Mul => b"MUL",
        Daa => b"DAA", Sleep => b"SLEEP", Stop => b"STOP"
    )
}
