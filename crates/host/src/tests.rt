// The entry point on the example of docs/REPORT.md, in a buffer that is longer, and on a text that is refused.
use super::fence_report;

const SCRIPT: &[u8] = b"var i = 0..4;\ntable cal[4] = 0..4;\ni := cal[i];\n";

const REPORT: [u8; 85] =
    *b"points 4 rounds 4\n0 i 0 4 1\n1 i 0 4 1\n2 i 0 3 1\n3 i 0 4 1\nrange 3 10 i 0 4 4 1\nend 1\n";

// What a buffer holds before the call.
const BLANK: u8 = b'.';

#[test]
fn a_buffer_one_byte_longer(rt: HostRuntime) {
    let mut buffer = [BLANK; 86];
    assert_eq!(rt; fence_report(rt.alloc(), SCRIPT, &mut buffer), 85);
    assert!(rt; buffer.starts_with(&REPORT));
    assert_eq!(rt; buffer[85], BLANK);
}

#[test]
fn a_name_that_is_not_declared(rt: HostRuntime) {
    let mut buffer = [BLANK; 85];
    assert_eq!(rt;
        fence_report(rt.alloc(), b"var i = 0..4; j := i;", &mut buffer),
        -8
    );
    assert_eq!(rt; buffer, [BLANK; 85]);
}
