// The rows: texts whose answers another program worked out, and each text written back.
use crate::{Answer, run_text};
use gg_base::{Break, End};
use l32_reader::{Asm32Kind, read32};
use l32_writer::write32;
use std::alloc::{AllocError, Global};
use std::test::Fail;

/// Lines of a data area, lines of a code behind `_main`, how many steps, what is written, and what the text comes to.
type Row = (&'static [u8], &'static [u8], u64, &'static [u8], Answer);

fn ended(value: u32) -> Answer {
    Answer::Run(End::Ended(value))
}

fn broken(kind: Break) -> Answer {
    Answer::Run(End::Broken(kind))
}

fn text_of(alloc: Global, area: &[u8], code: &[u8]) -> Result<Vec<u8>, AllocError> {
    let mut text = Vec::new(alloc);
    text.extend_from_slice(b"\t.data\n")?;
    text.extend_from_slice(area)?;
    text.extend_from_slice(b"\t.text\n_main:\n")?;
    text.extend_from_slice(code)?;
    Ok(text)
}

#[test]
fn texts(rt: HostRuntime) -> Result<(), Fail> {
    let alloc = rt.alloc();
    let rows: [Row; 35] = [
        (
            b"".as_slice(),
            b"\tli\ta0,$7\n\tret\n".as_slice(),
            2,
            b"".as_slice(),
            ended(7),
        ),
        (
            b"".as_slice(),
            b"\tli\ta0,$7\n\tret\n".as_slice(),
            1,
            b"".as_slice(),
            Answer::Run(End::Spent),
        ),
        (
            b"".as_slice(),
            b"\tli\ta1,$-8\n\tli\ta2,$33\n\tsra\ta0,a1,a2\n\tret\n".as_slice(),
            5000,
            b"".as_slice(),
            ended(0xfffffffc),
        ),
        (
            b"".as_slice(),
            b"\tli\ta1,$3\n\tli\ta2,$33\n\tsll\ta0,a1,a2\n\tret\n".as_slice(),
            5000,
            b"".as_slice(),
            ended(6),
        ),
        (
            b"".as_slice(),
            b"\tli\ta1,$-2147483648\n\tli\ta2,$-1\n\tdiv\ta0,a1,a2\n\tret\n".as_slice(),
            5000,
            b"".as_slice(),
            ended(0x80000000),
        ),
        (
            b"".as_slice(),
            b"\tdiv\ta0,a1,a2\n\tret\n".as_slice(),
            5000,
            b"".as_slice(),
            Answer::Run(End::Trapped),
        ),
        (
            b"".as_slice(),
            b"\tli\ta1,$200\n\tlb\ta0,a1\n\tret\n".as_slice(),
            5000,
            b"".as_slice(),
            ended(0xffffffc8),
        ),
        (
            b"".as_slice(),
            b"\tli\ta1,$-200\n\tlbu\ta0,a1\n\tret\n".as_slice(),
            5000,
            b"".as_slice(),
            ended(56),
        ),
        (
            b"".as_slice(),
            b"\tli\ta1,$40000\n\tlh\ta0,a1\n\tret\n".as_slice(),
            5000,
            b"".as_slice(),
            ended(0xffff9c40),
        ),
        (
            b"".as_slice(),
            b"\tenter\t$2\n\tli\ta1,$259\n\tsb\ta1,-4(fp)\n\tsh\ta1,-8(fp)\n\
                \tlw\ta2,-4(fp)\n\tlw\ta3,-8(fp)\n\tadd\ta0,a2,a3\n\tret\n"
                .as_slice(),
            5000,
            b"".as_slice(),
            ended(262),
        ),
        (
            b"".as_slice(),
            b"\tenter\t$2\n\tsta\t-8(fp),-4(fp)\n\tli\ta2,$9\n\tsw\ta2,@-4(fp)\n\tlw\ta0,-8(fp)\n\tret\n".as_slice(),
            5000,
            b"".as_slice(),
            ended(9),
        ),
        (
            b"".as_slice(),
            b"\tli\ta1,$321\n\tpush\ta1\n\tcall\t_putchar,$1\n\tret\n".as_slice(),
            5000,
            b"A".as_slice(),
            ended(65),
        ),
        (
            b"".as_slice(),
            b"\tcall\t_getchar,$0\n\tret\n".as_slice(),
            5000,
            b"".as_slice(),
            ended(0xffffffff),
        ),
        (
            b"".as_slice(),
            b"\tcall\t_getchar,$1\n\tret\n".as_slice(),
            5000,
            b"".as_slice(),
            broken(Break::BadCode),
        ),
        (
            b"".as_slice(),
            b"\tlw\ta0,0(fp)\n\tret\n".as_slice(),
            5000,
            b"".as_slice(),
            broken(Break::Access),
        ),
        (
            b"".as_slice(),
            b"\tla\ta0,12(a1)\n\tret\n".as_slice(),
            5000,
            b"".as_slice(),
            ended(12),
        ),
        (
            b"".as_slice(),
            b"\tli\ta0,$1\n".as_slice(),
            5000,
            b"".as_slice(),
            broken(Break::BadCode),
        ),
        (
            b"".as_slice(),
            b"L0:\n\tenter\t$1024\n\tb\tL0\n".as_slice(),
            5000,
            b"".as_slice(),
            broken(Break::StackFull),
        ),
        (
            b"".as_slice(),
            b"\tcall\t_main,$0\n\tret\n".as_slice(),
            5000,
            b"".as_slice(),
            broken(Break::StackFull),
        ),
        (
            b"".as_slice(),
            b"\tli\ta1,$1\n\tbltu\ta1,a0,L0\n\tbgtu\ta1,a0,L1\nL0:\n\tret\nL1:\n\tli\ta0,$3\n\tret\n".as_slice(),
            5000,
            b"".as_slice(),
            ended(3),
        ),
        (
            b"".as_slice(),
            b"\tli\ta1,$7\n\tli\ta2,$8\n\tpush\ta2\n\tpush\ta1\n\tcall\t_f,$2\n\tadd\ta0,a0,a1\n\
                \tla\ta3,0(sp)\n\tla\ta4,0(fp)\n\tbeq\ta3,a4,L0\n\tli\ta0,$0\nL0:\n\tret\n\
                _f:\n\tenter\t$3\n\tlw\ta1,0(fp)\n\tlw\ta2,4(fp)\n\tsub\ta0,a2,a1\n\tret\n"
                .as_slice(),
            5000,
            b"".as_slice(),
            ended(8),
        ),
        (
            b"_x:\n\t.long\t_y+1\n_y:\n\t.byte\t7\n\t.byte\t9\n".as_slice(),
            b"\tla\ta1,_x\n\tlbu\ta0,@0(a1)\n\tret\n".as_slice(),
            100,
            b"".as_slice(),
            ended(9),
        ),
        (
            b"_x:\n\t.byte\t1\n".as_slice(),
            b"\tlw\ta0,_x\n\tret\n".as_slice(),
            100,
            b"".as_slice(),
            broken(Break::Access),
        ),
        (
            b"_x:\n\t.byte\t1\n_x:\n".as_slice(),
            b"\tret\n".as_slice(),
            100,
            b"".as_slice(),
            Answer::DoubleLabel,
        ),
        (
            b"_x:\n".as_slice(),
            b"\tcall\t_x,$0\n\tret\n".as_slice(),
            100,
            b"".as_slice(),
            Answer::UndefinedLabel,
        ),
        (
            b"".as_slice(),
            b"\tb\t_putchar\n\tret\n".as_slice(),
            100,
            b"".as_slice(),
            Answer::UndefinedLabel,
        ),
        (
            b"\t.space\t1048576\n\t.byte\t1\n".as_slice(),
            b"\tret\n".as_slice(),
            100,
            b"".as_slice(),
            Answer::TooLarge,
        ),
        (
            b"".as_slice(),
            b"\tret\t\n".as_slice(),
            100,
            b"".as_slice(),
            Answer::Line(4, Asm32Kind::Operands),
        ),
        (
            b"".as_slice(),
            b"\tret".as_slice(),
            100,
            b"".as_slice(),
            Answer::Line(4, Asm32Kind::Cut),
        ),
        (
            b"".as_slice(),
            b"\tmovl\ta0,a1\n".as_slice(),
            100,
            b"".as_slice(),
            Answer::Line(4, Asm32Kind::Word),
        ),
        (
            b"".as_slice(),
            b"\t.globl\t_main\n".as_slice(),
            100,
            b"".as_slice(),
            Answer::Line(4, Asm32Kind::Word),
        ),
        (
            b"".as_slice(),
            b"\tli\ta0,$07\n".as_slice(),
            100,
            b"".as_slice(),
            Answer::Line(4, Asm32Kind::Operands),
        ),
        (
            b"".as_slice(),
            b"\tli\ta12,$7\n".as_slice(),
            100,
            b"".as_slice(),
            Answer::Line(4, Asm32Kind::Operands),
        ),
        (
            b"".as_slice(),
            b"\tlw\ta0,(sp)\n".as_slice(),
            100,
            b"".as_slice(),
            Answer::Line(4, Asm32Kind::Operands),
        ),
        (
            b"".as_slice(),
            b"\tenter\t$1025\n".as_slice(),
            100,
            b"".as_slice(),
            Answer::Line(4, Asm32Kind::Operands),
        ),
    ];
    for (area, code, count, output, wanted) in rows {
        let text = text_of(alloc, area, code)?;
        let mut written = Vec::new(alloc);
        assert_eq!(rt; run_text(alloc, &text, count, &mut written), wanted);
        assert!(rt; written.as_slice() == output);
    }
    Ok(())
}

#[test]
fn written_back(rt: HostRuntime) -> Result<(), Fail> {
    let alloc = rt.alloc();
    let text = text_of(
        alloc,
        b"_x:\n\t.long\t_x-1\n",
        b"\tli\ta0,$-1\n\tsta\t@-4(fp),_x+2\n\tbeq\ta11,a10,_main\n\tcall\t_putchar,$1\n\tret\n",
    )?;
    match read32(alloc, &text) {
        Ok(code) => {
            let mut back = String::new(alloc);
            write32(&code, &mut back)?;
            assert!(rt; back.as_bytes() == text.as_slice());
        }
        Err(_) => assert!(rt; false),
    }
    Ok(())
}
