//! Test vectors of the assembler and the listing.

use spc700_asm::{AsmRefusal, LineFault, assemble, disassemble};
use std::alloc::Global;
use std::test::Fail;

/// What a source of at most 10,000 bytes is assembled to, or why it isn't.
pub fn assembled(alloc: Global, source: &[u8], origin: u16) -> Result<Vec<u8>, AsmRefusal> {
    if source.len() > 10000 {
        return Err(AsmRefusal::OutOfMemory);
    }
    assemble(alloc, source, origin)
}

#[test]
fn listings(rt: HostRuntime) -> Result<(), Fail> {
    let rows: [(u16, &[u8], &[u8]); 4] = [
        (
            0x0400,
            b"\x8f\x5a\xf4\x2f\xfe",
            b"MOV $f4,#$5a\nBRA $0403\n",
        ),
        (0x0400, b"\x8f\x5a", b".byte $8f,$5a\n"),
        (0x0400, b"", b""),
        (
            0x0200,
            b"\xea\x34\xf2\x73\x10\xfe\xa1\x1f\x34\x12\xcf",
            b"NOT1 $1234.7\nBBC $10.3,$0204\nTCALL 10\nJMP [!$1234+X]\nMUL YA\n",
        ),
    ];
    for (origin, bytes, text) in rows {
        let listing = disassemble(rt.alloc(), bytes, origin)?;
        assert!(rt; listing.as_slice() == text);
    }
    Ok(())
}

/// Sources from an address on, and the bytes that they are assembled to.
const ASSEMBLED: [(u16, &[u8], &[u8]); 11] = [
    (
        0x0400,
        b"loop: ; x\n mov a , $F3\nBNE loop\n",
        b"\xe4\xf3\xd0\xfc",
    ),
    (0x0400, b"", b""),
    (0xffff, b"NOP\nend:", b"\x00"),
    // a name at the end of the memory stands for 0
    (0xfffd, b"JMP !end\nend:", b"\x5f\x00\x00"),
    (
        0x0000,
        b"a:\n.byte 1 , $fF\n.word a,b\nSET1 16.$7\nTCALL $f\nb: ;\nMOV A,$0010\nJMP !a",
        b"\x01\xff\x00\x00\x09\x00\xe2\x10\xf1\xe4\x10\x5f\x00\x00",
    ),
    // a name of 32 characters
    (
        0x0400,
        b"_a_name_of_thirty2_characters_32:\nJMP !_a_name_of_thirty2_characters_32",
        b"\x5f\x00\x04",
    ),
    // tabs and carriage returns are blanks, at the ends of a line and inside
    (
        0x0400,
        b"NOP\r\n\tMOV\tA\r,\t#1\r\r\n.byte\r2\r",
        b"\x00\xe8\x01\x02",
    ),
    (
        0x0400,
        b".word 65535 , 00000\nJMP !65535",
        b"\xff\xff\x00\x00\x5f\xff\xff",
    ),
    // anything may stand in a comment
    (0x0400, b"NOP;\xff\x80\0;\nNOP ;", b"\x00\x00"),
    // a name may stand for each address
    (
        0x0400,
        b"t:\nMOV A,!t+X\nMOV !t+Y,A\nJMP [!t+X]",
        b"\xf5\x00\x04\xd6\x00\x04\x1f\x00\x04",
    ),
    // registers after a number have letters of either case, too
    (
        0x0400,
        b"mov a,$10+x\nmov a,[$10]+y\nmov (x)+,a\njmp [!$1234+x]",
        b"\xf4\x10\xf7\x10\xaf\x1f\x34\x12",
    ),
];

#[test]
fn sources_that_are_assembled(rt: HostRuntime) -> Result<(), Fail> {
    for (origin, source, bytes) in ASSEMBLED {
        let assembled = assembled(rt.alloc(), source, origin);
        assert!(rt; assembled.as_ref().map(|made| made.as_slice()) == Ok(bytes));
    }
    Ok(())
}

/// Sources from an address on, and the line and the fault for which they are refused.
const REFUSED: [(u16, &[u8], u32, LineFault); 48] = [
    (
        0x0400,
        b"NOP\nMOV A,#256\nBRA nowhere\n",
        2,
        LineFault::Number,
    ),
    (0x0400, b"NOP\nBRA nowhere\n", 2, LineFault::Name),
    (0x0400, b"x:\nx:\n", 2, LineFault::Twice),
    (0x0400, b"BRA $0500", 1, LineFault::Far),
    (0xffff, b"NOP\nNOP\n", 2, LineFault::Long),
    (0x0400, b"MOVA,X", 1, LineFault::Form),
    (0x0400, b"SET1 $10.8", 1, LineFault::Number),
    (0x0400, b"MOV A,#foo", 1, LineFault::Form),
    (0x0400, b"a:\nBRA A", 2, LineFault::Name),
    (0x0400, b"loop: NOP", 1, LineFault::Form),
    (0x0400, b".BYTE 1", 1, LineFault::Form),
    (0x0400, b".byte foo", 1, LineFault::Form),
    (0x0400, b".byte 256", 1, LineFault::Number),
    (0x0400, b"MOV A,$10000", 1, LineFault::Form),
    (0x0400, b"NOT1 8192.0", 1, LineFault::Number),
    (0x0400, b"TCALL 16", 1, LineFault::Number),
    (0x0400, b"BRA nowhere\nx:\nx:\nNOP,\n", 3, LineFault::Twice),
    // a name of 33 characters, and one that begins with a digit
    (
        0x0400,
        b"_a_name_of_thirty3_characters__33:\n",
        1,
        LineFault::Form,
    ),
    (0x0400, b"1a:\n", 1, LineFault::Form),
    (0x0400, b"a-b:\n", 1, LineFault::Form),
    (0x0400, b".word 65536", 1, LineFault::Number),
    (0x0400, b".word 99999", 1, LineFault::Number),
    (0x0400, b"JMP !65536", 1, LineFault::Number),
    // six decimal digits, and a bare sign
    (0x0400, b"MOV A,#000001", 1, LineFault::Form),
    (0x0400, b"MOV A,#$", 1, LineFault::Form),
    // bytes of 80h or more before a comment, and a blank that is none
    (0x0400, b"NOP \x80;\n", 1, LineFault::Form),
    (0x0400, b"NOP\x0b\n", 1, LineFault::Form),
    (0xffff, b"MOV A,#256", 1, LineFault::Number),
    (0xffff, b"MOV A,#255", 1, LineFault::Long),
    // blanks before a colon or inside an operand, two things on a line, and items that are missing
    (0x0400, b"loop :", 1, LineFault::Form),
    (0x0400, b"a: b:", 1, LineFault::Form),
    (0x0400, b"MOV A,$10 +X", 1, LineFault::Form),
    (0x0400, b".byte", 1, LineFault::Form),
    (0x0400, b".byte 1,", 1, LineFault::Form),
    // names where only a number stands, bits where there are none, and one that is missing
    (0x0400, b"NOT1 foo.0", 1, LineFault::Form),
    (0x0400, b"SET1 foo.0", 1, LineFault::Form),
    (0x0400, b"TCALL foo", 1, LineFault::Form),
    (0x0400, b"MOV A,$10.0", 1, LineFault::Form),
    (0x0400, b"JMP !16.0", 1, LineFault::Form),
    (0x0400, b"BRA 1024.0", 1, LineFault::Form),
    (0x0400, b"INC A.0", 1, LineFault::Form),
    (0x0400, b"SET1 $10", 1, LineFault::Form),
    // numbers above the greatest of their place, and names that no line defines
    (0x0400, b"SET1 256.0", 1, LineFault::Number),
    (0x0400, b"NOT1 0.8", 1, LineFault::Number),
    (0x0400, b"BRA 65536", 1, LineFault::Number),
    (0x0400, b".word nowhere", 1, LineFault::Name),
    (0x0400, b"JMP !nowhere", 1, LineFault::Name),
    (0x0400, b"BRA $0500\nBRA nowhere", 1, LineFault::Far),
];

#[test]
fn sources_that_are_refused(rt: HostRuntime) -> Result<(), Fail> {
    for (origin, source, number, fault) in REFUSED {
        let assembled = assembled(rt.alloc(), source, origin);
        assert!(rt; assembled.err() == Some(AsmRefusal::Line { number, fault }));
    }
    Ok(())
}
