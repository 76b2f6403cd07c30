//! A newline in the middle of a line. What lines are read as is tested by the cases of `ngc_cases`.
use ng_num::Fault;
use ng_words::Line;

/// No line of a file contains a newline.
#[test]
fn a_newline_within_a_line_is_refused(rt: HostRuntime) {
    let mut line = Line::new();
    assert_eq!(rt; line.read(b"G0\n"), Err(Fault::Unreadable));
}
