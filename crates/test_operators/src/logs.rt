use log_reading::{LogFault, read_log_page};
use operator_restore::is_whole;

// Its second record is missing.
static CUT: &str = "log 2\n[1000] 1:1 PROCESS_HOST_CHECK_RESULT;web1;0;up -> Accepted\n";

// The next run has begun, and printed no log page.
static EARLIER: &str =
    "log 1\n[100] 2:1 DEL_HOST_COMMENT;9 -> NoSuchComment\nagents 127.0.0.1:5667\n";

#[test]
fn a_log_that_was_cut_off_is_refused(rt: HostRuntime) {
    let alloc = rt.alloc();
    let fault = read_log_page(alloc, CUT.as_bytes()).err();
    assert_eq!(rt; fault, Some(LogFault::CutOff(3)));
    assert_eq!(rt; is_whole(alloc, CUT.as_bytes()).ok(), Some(false));
    assert_eq!(rt; is_whole(alloc, EARLIER.as_bytes()).ok(), Some(false));
}
