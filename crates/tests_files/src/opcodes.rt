//! All opcodes, with their bytes and their text.

use crate::assembly::assembled;
use spc700_asm::disassemble;
use std::alloc::Global;
use std::test::Fail;

/// An instruction of each opcode, in their order, whose operands have the bytes 12h and 34h.
const CODE: &[u8] = b"\
    \x00\x01\x02\x12\x03\x12\x34\x04\x12\x05\x12\x34\x06\x07\x12\x08\x12\x09\x12\x34\x0a\x12\x34\x0b\x12\x0c\x12\x34\x0d\x0e\x12\x34\x0f\
    \x10\x12\x11\x12\x12\x13\x12\x34\x14\x12\x15\x12\x34\x16\x12\x34\x17\x12\x18\x12\x34\x19\x1a\x12\x1b\x12\x1c\x1d\x1e\x12\x34\x1f\x12\x34\
    \x20\x21\x22\x12\x23\x12\x34\x24\x12\x25\x12\x34\x26\x27\x12\x28\x12\x29\x12\x34\x2a\x12\x34\x2b\x12\x2c\x12\x34\x2d\x2e\x12\x34\x2f\x12\
    \x30\x12\x31\x32\x12\x33\x12\x34\x34\x12\x35\x12\x34\x36\x12\x34\x37\x12\x38\x12\x34\x39\x3a\x12\x3b\x12\x3c\x3d\x3e\x12\x3f\x12\x34\
    \x40\x41\x42\x12\x43\x12\x34\x44\x12\x45\x12\x34\x46\x47\x12\x48\x12\x49\x12\x34\x4a\x12\x34\x4b\x12\x4c\x12\x34\x4d\x4e\x12\x34\x4f\x12\
    \x50\x12\x51\x52\x12\x53\x12\x34\x54\x12\x55\x12\x34\x56\x12\x34\x57\x12\x58\x12\x34\x59\x5a\x12\x5b\x12\x5c\x5d\x5e\x12\x34\x5f\x12\x34\
    \x60\x61\x62\x12\x63\x12\x34\x64\x12\x65\x12\x34\x66\x67\x12\x68\x12\x69\x12\x34\x6a\x12\x34\x6b\x12\x6c\x12\x34\x6d\x6e\x12\x34\x6f\
    \x70\x12\x71\x72\x12\x73\x12\x34\x74\x12\x75\x12\x34\x76\x12\x34\x77\x12\x78\x12\x34\x79\x7a\x12\x7b\x12\x7c\x7d\x7e\x12\x7f\
    \x80\x81\x82\x12\x83\x12\x34\x84\x12\x85\x12\x34\x86\x87\x12\x88\x12\x89\x12\x34\x8a\x12\x34\x8b\x12\x8c\x12\x34\x8d\x12\x8e\x8f\x12\x34\
    \x90\x12\x91\x92\x12\x93\x12\x34\x94\x12\x95\x12\x34\x96\x12\x34\x97\x12\x98\x12\x34\x99\x9a\x12\x9b\x12\x9c\x9d\x9e\x9f\
    \xa0\xa1\xa2\x12\xa3\x12\x34\xa4\x12\xa5\x12\x34\xa6\xa7\x12\xa8\x12\xa9\x12\x34\xaa\x12\x34\xab\x12\xac\x12\x34\xad\x12\xae\xaf\
    \xb0\x12\xb1\xb2\x12\xb3\x12\x34\xb4\x12\xb5\x12\x34\xb6\x12\x34\xb7\x12\xb8\x12\x34\xb9\xba\x12\xbb\x12\xbc\xbd\xbe\xbf\
    \xc0\xc1\xc2\x12\xc3\x12\x34\xc4\x12\xc5\x12\x34\xc6\xc7\x12\xc8\x12\xc9\x12\x34\xca\x12\x34\xcb\x12\xcc\x12\x34\xcd\x12\xce\xcf\
    \xd0\x12\xd1\xd2\x12\xd3\x12\x34\xd4\x12\xd5\x12\x34\xd6\x12\x34\xd7\x12\xd8\x12\xd9\x12\xda\x12\xdb\x12\xdc\xdd\xde\x12\x34\xdf\
    \xe0\xe1\xe2\x12\xe3\x12\x34\xe4\x12\xe5\x12\x34\xe6\xe7\x12\xe8\x12\xe9\x12\x34\xea\x12\x34\xeb\x12\xec\x12\x34\xed\xee\xef\
    \xf0\x12\xf1\xf2\x12\xf3\x12\x34\xf4\x12\xf5\x12\x34\xf6\x12\x34\xf7\x12\xf8\x12\xf9\x12\xfa\x12\x34\xfb\x12\xfc\xfd\xfe\x12\xff";

/// The text of each of them from 0400h on, by the opcode list of Anomie's SPC700 document.
const TEXT: &[u8] = b"\
    NOP\n\
    TCALL 0\n\
    SET1 $12.0\n\
    BBS $12.0,$043b\n\
    OR A,$12\n\
    OR A,!$3412\n\
    OR A,(X)\n\
    OR A,[$12+X]\n\
    OR A,#$12\n\
    OR $34,$12\n\
    OR1 C,$1412.1\n\
    ASL $12\n\
    ASL !$3412\n\
    PUSH PSW\n\
    TSET1 !$3412\n\
    BRK\n\
    BPL $0435\n\
    TCALL 1\n\
    CLR1 $12.0\n\
    BBC $12.0,$045d\n\
    OR A,$12+X\n\
    OR A,!$3412+X\n\
    OR A,!$3412+Y\n\
    OR A,[$12]+Y\n\
    OR $34,#$12\n\
    OR (X),(Y)\n\
    DECW $12\n\
    ASL $12+X\n\
    ASL A\n\
    DEC X\n\
    CMP X,!$3412\n\
    JMP [!$3412+X]\n\
    CLRP\n\
    TCALL 2\n\
    SET1 $12.1\n\
    BBS $12.1,$047e\n\
    AND A,$12\n\
    AND A,!$3412\n\
    AND A,(X)\n\
    AND A,[$12+X]\n\
    AND A,#$12\n\
    AND $34,$12\n\
    OR1 C,/$1412.1\n\
    ROL $12\n\
    ROL !$3412\n\
    PUSH A\n\
    CBNE $12,$0497\n\
    BRA $0477\n\
    BMI $0479\n\
    TCALL 3\n\
    CLR1 $12.1\n\
    BBC $12.1,$04a1\n\
    AND A,$12+X\n\
    AND A,!$3412+X\n\
    AND A,!$3412+Y\n\
    AND A,[$12]+Y\n\
    AND $34,#$12\n\
    AND (X),(Y)\n\
    INCW $12\n\
    ROL $12+X\n\
    ROL A\n\
    INC X\n\
    CMP X,$12\n\
    CALL !$3412\n\
    SETP\n\
    TCALL 4\n\
    SET1 $12.2\n\
    BBS $12.2,$04c1\n\
    EOR A,$12\n\
    EOR A,!$3412\n\
    EOR A,(X)\n\
    EOR A,[$12+X]\n\
    EOR A,#$12\n\
    EOR $34,$12\n\
    AND1 C,$1412.1\n\
    LSR $12\n\
    LSR !$3412\n\
    PUSH X\n\
    TCLR1 !$3412\n\
    PCALL $12\n\
    BVC $04bc\n\
    TCALL 5\n\
    CLR1 $12.2\n\
    BBC $12.2,$04e4\n\
    EOR A,$12+X\n\
    EOR A,!$3412+X\n\
    EOR A,!$3412+Y\n\
    EOR A,[$12]+Y\n\
    EOR $34,#$12\n\
    EOR (X),(Y)\n\
    CMPW YA,$12\n\
    LSR $12+X\n\
    LSR A\n\
    MOV X,A\n\
    CMP Y,!$3412\n\
    JMP !$3412\n\
    CLRC\n\
    TCALL 6\n\
    SET1 $12.3\n\
    BBS $12.3,$0505\n\
    CMP A,$12\n\
    CMP A,!$3412\n\
    CMP A,(X)\n\
    CMP A,[$12+X]\n\
    CMP A,#$12\n\
    CMP $34,$12\n\
    AND1 C,/$1412.1\n\
    ROR $12\n\
    ROR !$3412\n\
    PUSH Y\n\
    DBNZ $12,$051e\n\
    RET\n\
    BVS $04ff\n\
    TCALL 7\n\
    CLR1 $12.3\n\
    BBC $12.3,$0527\n\
    CMP A,$12+X\n\
    CMP A,!$3412+X\n\
    CMP A,!$3412+Y\n\
    CMP A,[$12]+Y\n\
    CMP $34,#$12\n\
    CMP (X),(Y)\n\
    ADDW YA,$12\n\
    ROR $12+X\n\
    ROR A\n\
    MOV A,X\n\
    CMP Y,$12\n\
    RETI\n\
    SETC\n\
    TCALL 8\n\
    SET1 $12.4\n\
    BBS $12.4,$0545\n\
    ADC A,$12\n\
    ADC A,!$3412\n\
    ADC A,(X)\n\
    ADC A,[$12+X]\n\
    ADC A,#$12\n\
    ADC $34,$12\n\
    EOR1 C,$1412.1\n\
    DEC $12\n\
    DEC !$3412\n\
    MOV Y,#$12\n\
    POP PSW\n\
    MOV $34,#$12\n\
    BCC $0540\n\
    TCALL 9\n\
    CLR1 $12.4\n\
    BBC $12.4,$0568\n\
    ADC A,$12+X\n\
    ADC A,!$3412+X\n\
    ADC A,!$3412+Y\n\
    ADC A,[$12]+Y\n\
    ADC $34,#$12\n\
    ADC (X),(Y)\n\
    SUBW YA,$12\n\
    DEC $12+X\n\
    DEC A\n\
    MOV X,SP\n\
    DIV YA,X\n\
    XCN\n\
    EI\n\
    TCALL 10\n\
    SET1 $12.5\n\
    BBS $12.5,$0585\n\
    SBC A,$12\n\
    SBC A,!$3412\n\
    SBC A,(X)\n\
    SBC A,[$12+X]\n\
    SBC A,#$12\n\
    SBC $34,$12\n\
    MOV1 C,$1412.1\n\
    INC $12\n\
    INC !$3412\n\
    CMP Y,#$12\n\
    POP A\n\
    MOV (X)+,A\n\
    BCS $057e\n\
    TCALL 11\n\
    CLR1 $12.5\n\
    BBC $12.5,$05a6\n\
    SBC A,$12+X\n\
    SBC A,!$3412+X\n\
    SBC A,!$3412+Y\n\
    SBC A,[$12]+Y\n\
    SBC $34,#$12\n\
    SBC (X),(Y)\n\
    MOVW YA,$12\n\
    INC $12+X\n\
    INC A\n\
    MOV SP,X\n\
    DAS\n\
    MOV A,(X)+\n\
    DI\n\
    TCALL 12\n\
    SET1 $12.6\n\
    BBS $12.6,$05c3\n\
    MOV $12,A\n\
    MOV !$3412,A\n\
    MOV (X),A\n\
    MOV [$12+X],A\n\
    CMP X,#$12\n\
    MOV !$3412,X\n\
    MOV1 $1412.1,C\n\
    MOV $12,Y\n\
    MOV !$3412,Y\n\
    MOV X,#$12\n\
    POP X\n\
    MUL YA\n\
    BNE $05bc\n\
    TCALL 13\n\
    CLR1 $12.6\n\
    BBC $12.6,$05e4\n\
    MOV $12+X,A\n\
    MOV !$3412+X,A\n\
    MOV !$3412+Y,A\n\
    MOV [$12]+Y,A\n\
    MOV $12,X\n\
    MOV $12+Y,X\n\
    MOVW $12,YA\n\
    MOV $12+X,Y\n\
    DEC Y\n\
    MOV A,Y\n\
    CBNE $12+X,$05fb\n\
    DAA\n\
    CLRV\n\
    TCALL 14\n\
    SET1 $12.7\n\
    BBS $12.7,$0603\n\
    MOV A,$12\n\
    MOV A,!$3412\n\
    MOV A,(X)\n\
    MOV A,[$12+X]\n\
    MOV A,#$12\n\
    MOV X,!$3412\n\
    NOT1 $1412.1\n\
    MOV Y,$12\n\
    MOV Y,!$3412\n\
    NOTC\n\
    POP Y\n\
    SLEEP\n\
    BEQ $05fb\n\
    TCALL 15\n\
    CLR1 $12.7\n\
    BBC $12.7,$0623\n\
    MOV A,$12+X\n\
    MOV A,!$3412+X\n\
    MOV A,!$3412+Y\n\
    MOV A,[$12]+Y\n\
    MOV X,$12\n\
    MOV X,$12+Y\n\
    MOV $34,$12\n\
    MOV Y,$12+X\n\
    INC Y\n\
    MOV Y,A\n\
    DBNZ Y,$0618\n\
    STOP\n";

/// What at most 1,000 bytes are listed as at 0400h.
fn listed(alloc: Global, bytes: &[u8]) -> Result<Vec<u8>, Fail> {
    let most = bytes.len().min(1000);
    Ok(disassemble(alloc, &bytes[..most], 0x0400)?)
}

#[test]
fn every_opcode_has_its_bytes_and_its_text(rt: HostRuntime) -> Result<(), Fail> {
    assert!(rt; listed(rt.alloc(), CODE)?.as_slice() == TEXT);
    let assembled = assembled(rt.alloc(), TEXT, 0x0400);
    assert!(rt; assembled.as_ref().map(|made| made.as_slice()) == Ok(CODE));
    Ok(())
}
