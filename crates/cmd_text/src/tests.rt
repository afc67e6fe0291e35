// The text of one image, and that the image without its last byte is none.
use crate::write_text;
use cmd_session::Status;
use gg_base::{Bytes, Name};
use gg_outside::{MemFile, MemFolder, MemSink};
use std::alloc::{AllocError, Global};
use std::test::Fail;

// The assembly text of a program that writes two letters.
const TEXT: &[u8] = b"\t.data\n\t.text\n\t.globl\t_main\n_main:\n\t.word\t0\n\
    \tpushl\t$72\n\tcalls\t$1,_putchar\n\tpushl\t$105\n\tcalls\t$1,_putchar\n\
    \tpushl\t$0\n\tmovl\t(sp)+,r0\n\tret\n";

// Its binary image.
const IMAGE: [u8; 115] = [
    0x47, 0x47, 0x49, 0x31, 0x22, 0x00, 0x00, 0x00, 0x00, 0x00, 0xdd, 0x8f, 0x48, 0x00, 0x00, 0x00,
    0xfb, 0x01, 0xef, 0x00, 0x00, 0x00, 0x00, 0xdd, 0x8f, 0x69, 0x00, 0x00, 0x00, 0xfb, 0x01, 0xef,
    0x00, 0x00, 0x00, 0x00, 0xdd, 0x00, 0xd0, 0x8e, 0x50, 0x04, 0x03, 0x00, 0x00, 0x00, 0x00, 0x00,
    0x00, 0x00, 0x01, 0x05, 0x5f, 0x6d, 0x61, 0x69, 0x6e, 0x00, 0x00, 0x00, 0x00, 0x00, 0x05, 0x5f,
    0x6d, 0x61, 0x69, 0x6e, 0x00, 0x00, 0x00, 0x00, 0x02, 0x02, 0x00, 0x00, 0x00, 0x0b, 0x00, 0x00,
    0x00, 0x08, 0x5f, 0x70, 0x75, 0x74, 0x63, 0x68, 0x61, 0x72, 0x00, 0x00, 0x00, 0x00, 0x18, 0x00,
    0x00, 0x00, 0x08, 0x5f, 0x70, 0x75, 0x74, 0x63, 0x68, 0x61, 0x72, 0x00, 0x00, 0x00, 0x00, 0x00,
    0x00, 0x00, 0x00,
];

// A folder with a file `a`.
fn folder_of(alloc: Global, bytes: &[u8]) -> Result<MemFolder, AllocError> {
    let mut files = Vec::new(alloc);
    files.push(MemFile {
        name: Name::from_vec(Vec::from_slice(alloc, b"a")?),
        bytes: Bytes::from_vec(Vec::from_slice(alloc, bytes)?),
    })?;
    Ok(MemFolder::new(alloc, files, Vec::new(alloc)))
}

#[test]
fn writes_a_text(rt: HostRuntime) -> Result<(), Fail> {
    let alloc = rt.alloc();
    let rows = [
        (IMAGE.as_slice(), Status::Done, TEXT, b"".as_slice()),
        (
            &IMAGE[..114],
            Status::ImageRefused,
            b"".as_slice(),
            b"ggvax: no image\n".as_slice(),
        ),
    ];
    for (image, status, text, line) in rows {
        let mut folder = folder_of(alloc, image)?;
        let mut out = MemSink::new(alloc, 16, Vec::new(alloc));
        let mut report = MemSink::new(alloc, 16, Vec::new(alloc));
        let answer = write_text(alloc, "a", &mut folder, &mut out, &mut report);
        assert_eq!(rt; answer, status);
        assert_eq!(rt; out.bytes(), text);
        assert_eq!(rt; report.bytes(), line);
    }
    Ok(())
}
