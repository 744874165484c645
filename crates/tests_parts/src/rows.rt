//! Rows of the instruction list, as the public documents have them.

use spc700_table::{Form, Kind, OpRow, length, row};
use std::test::Fail;

#[test]
fn rows_and_lengths_are_those_of_the_documents(rt: HostRuntime) -> Result<(), Fail> {
    let rows = [
        (0x2f, Kind::Bra, Form::Rel, Form::None, 4, 4, 2),
        (0xf0, Kind::Beq, Form::Rel, Form::None, 2, 4, 2),
        (0xe8, Kind::Mov, Form::A, Form::Imm, 2, 2, 2),
        (0x8f, Kind::Mov, Form::Direct, Form::Imm, 5, 5, 3),
        (0x73, Kind::Bbc, Form::DirectBit(3), Form::Rel, 5, 7, 3),
        (0xa1, Kind::Tcall, Form::Table(10), Form::None, 8, 8, 1),
        (0x1f, Kind::Jmp, Form::AbsPtrX, Form::None, 6, 6, 3),
        (0x9e, Kind::Div, Form::Ya, Form::X, 12, 12, 1),
        (0xcf, Kind::Mul, Form::Ya, Form::None, 9, 9, 1),
        (0x9f, Kind::Xcn, Form::None, Form::None, 5, 5, 1),
        (0xff, Kind::Stop, Form::None, Form::None, 0, 0, 1),
    ];
    for (op, kind, first, second, cycles, taken, bytes) in rows {
        let want = OpRow {
            kind,
            first,
            second,
            cycles,
            taken,
        };
        assert!(rt; row(op) == want);
        assert!(rt; length(op) == bytes);
    }
    Ok(())
}
