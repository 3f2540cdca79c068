//! The feeds of the first states, byte by byte.
ghost use Rattle.std.specs.Prelude.{◌<◌, length};

use super::*;
use crate::rows::next_state;
use outer_io::Source;
use std::alloc::{AllocError, Global};
use std::test::Fail;

// What the source gives in 1,000 reads into the buffer.
fn text_of(alloc: Global, mut source: GenSource, buf: &mut [u8]) -> Result<Vec<u8>, AllocError>
    requires { 0 < length buf.old }
{
    let mut text = Vec::new(alloc);
    for _ in 0..1000 {
        if let Ok(n) = source.read(buf) {
            text.extend_from_slice(&buf[..n])?;
        }
    }
    Ok(text)
}

#[test]
fn gives_the_bytes_of_the_page(rt: HostRuntime) {
    let mut source = GenSource::new(1, 1);
    let mut buf = [0; 64];
    assert_eq!(rt; source.read(&mut buf), Ok(28));
    assert_eq!(rt; &buf[..28], b"x,y,kind,time\n433,374,d,940\n".as_slice());
}

#[test]
fn steps_from_the_first_states(rt: HostRuntime) {
    for (state, want) in [(1, 7806831264735756412), (2, 14170967488582549417)] {
        assert_eq!(rt; next_state(state), want, "from {state}");
    }
}

#[test]
fn gives_one_text_by_reads_of_any_size(rt: HostRuntime) -> Result<(), Fail> {
    let cases = [
        (1, 0, "x,y,kind,time\n"),
        (1, 1, "x,y,kind,time\n433,374,d,940\n"),
        (2, 1, "x,y,kind,time\n786,662,a,985\n"),
    ];
    for (state, rows, want) in cases {
        let by_one = text_of(rt.alloc(), GenSource::new(state, rows), &mut [0; 1])?;
        let by_seven = text_of(rt.alloc(), GenSource::new(state, rows), &mut [0; 7])?;
        let at_once = text_of(rt.alloc(), GenSource::new(state, rows), &mut [0; 4096])?;
        assert_eq!(rt; by_one.as_slice(), want.as_bytes());
        assert_eq!(rt; by_seven.as_slice(), want.as_bytes());
        assert_eq!(rt; at_once.as_slice(), want.as_bytes());
    }
    Ok(())
}

#[test]
fn stays_at_its_end(rt: HostRuntime) {
    let mut source = GenSource::new(1, 0);
    let mut buf = [0; 64];
    for want in [14, 0, 0] {
        assert_eq!(rt; source.read(&mut buf), Ok(want));
    }
}
