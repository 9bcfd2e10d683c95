// Lines of a script and what is printed for them.
use crate::reply::reply_to;
use std::alloc::Global;
use std::process::Abort;
use std::test::Fail;

// The line is answered by the text, and where that is empty by nothing.
fn says(rt: &impl Abort, heap: Global, line: &[u8], text: &str) -> Result<(), Fail> {
    match reply_to(heap, line) {
        Ok(Some(setting)) => assert_eq!(rt; format!(in heap; "{setting}")?.as_str(), text),
        Ok(None) => assert_eq!(rt; "", text),
        Err(error) => assert_eq!(rt; format!(in heap; "{error}")?.as_str(), text),
    }
    Ok(())
}

#[test]
fn reads_lines(rt: HostRuntime) -> Result<(), Fail> {
    let heap = rt.alloc();
    says(&rt, heap, b"", "")?;
    says(&rt, heap, b"   \n", "")?;
    says(&rt, heap, b" # clock\n", "")?;
    says(&rt, heap, b"\r\n", "")?;
    says(&rt, heap, b"  clock   0  007 \r\n", "refused 1")?;
    says(&rt, heap, b"clock 1 0000000000004294967295\r", "refused 3")?;
    says(
        &rt,
        heap,
        b"clock 1 4294967296",
        "error: \"4294967296\" is too large (expected at most 4294967295)",
    )
}

#[test]
fn names_what_cannot_be_read(rt: HostRuntime) -> Result<(), Fail> {
    let heap = rt.alloc();
    says(
        &rt,
        heap,
        b"clock",
        "error: clock without a frequency (expected clock FREQUENCY SOURCE SOURCE ..)",
    )?;
    says(
        &rt,
        heap,
        b"clock 1 +2",
        "error: \"+2\" is not a number (expected decimal digits)",
    )?;
    says(
        &rt,
        heap,
        b"clocks 1",
        "error: unknown statement \"clocks\" (expected clock)",
    )?;
    says(
        &rt,
        heap,
        b"clock\t1",
        "error: unknown statement \"clock\\x091\" (expected clock)",
    )?;
    says(
        &rt,
        heap,
        b"clock \xc3\xa9\"",
        "error: \"\\xc3\\xa9\\x22\" is not a number (expected decimal digits)",
    )
}

#[test]
fn answers_clock_lines(rt: HostRuntime) -> Result<(), Fail> {
    let heap = rt.alloc();
    let set = "source 1 div_num 9 div_b 3 div_a 13 count 285 hertz 26000000";
    says(
        &rt,
        heap,
        b"clock 26000000 40000000 240000000 160000000",
        set,
    )?;
    says(&rt, heap, b"clock 0 40000000", "refused 1")?;
    says(&rt, heap, b"clock 26000000", "refused 3")
}
