use crate::page::{try_put_fail, try_put_governing, try_put_rate, try_put_total};
use formats::refusal::Refusal;
use network::report::Report;

const REPORT: Report = Report {
    value: 50,
    near: 1,
    far: 7,
};

// Each line where it just fits behind two bytes, and where one byte is wanting: then nothing is written.

#[test]
fn lines_that_fit(rt: HostRuntime) {
    let mut rate = [b'-'; 25];
    assert!(rt; try_put_rate(&mut rate, 2, 1, &REPORT, 4) == Ok(25));
    assert!(rt; rate.as_slice() == b"--RATE    1       50NBBD\n".as_slice());
    let mut governing = [b'-'; 17];
    let marks = [false, false, false, false, true];
    assert!(rt; try_put_governing(&mut governing, 2, 2, &marks) == Ok(17));
    assert!(rt; governing.as_slice() == b"--GOVN    2....G\n".as_slice());
    let mut total = [b'-'; 21];
    assert!(rt; try_put_total(&mut total, 2, 5100) == Ok(21));
    assert!(rt; total.as_slice() == b"--TOTL          5100\n".as_slice());
    let mut fail = [b'-'; 16];
    assert!(rt; try_put_fail(&mut fail, &Refusal::WrongKind(3)) == Ok(15));
    assert!(rt; fail.as_slice() == b"FAIL    2    3\n-".as_slice());
}

#[test]
fn lines_that_do_not_fit(rt: HostRuntime) {
    let refused = Err(Refusal::LittleSpace);
    let mut rate = [b'-'; 24];
    assert!(rt; try_put_rate(&mut rate, 2, 1, &REPORT, 4) == refused);
    assert!(rt; rate == [b'-'; 24]);
    let mut governing = [b'-'; 16];
    let marks = [false, false, false, false, true];
    assert!(rt; try_put_governing(&mut governing, 2, 2, &marks) == refused);
    assert!(rt; governing == [b'-'; 16]);
    let mut total = [b'-'; 20];
    assert!(rt; try_put_total(&mut total, 2, 5100) == refused);
    assert!(rt; total == [b'-'; 20]);
    let mut fail = [b'-'; 14];
    assert!(rt; try_put_fail(&mut fail, &Refusal::WrongKind(3)) == refused);
    assert!(rt; fail == [b'-'; 14]);
}
