//! Scripts that are played on a map.
use crate::tests::run_failing;
use crate::tests_of_makers::joins_told;
use std::test::Fail;

/// A script, the status, and what is written.
const PLAYED: [(&str, u8, &str); 6] = [
    (
        "rangestore 1\nlimit 64\n1 put \"a\" 5\n2 get \"a\"\n1 commit\n2 get \"a\"\n2 put \"a\" 6\n2 abort\n",
        0,
        "1 put \"a\" ok\n2 held by 1\n1 commit\n2 get \"a\" 5\n2 put \"a\" ok\n2 abort\nmap \"a\" 5\nend 1\n",
    ),
    (
        "rangestore 1\nlimit 64\n1 scan \"a\" \"c\"\n2 put \"b\" 1\n1 commit\n2 put \"b\" 1\n2 commit\n",
        0,
        "1 scan \"a\" \"c\" none\n2 held by 1\n1 commit\n2 put \"b\" ok\n2 commit\nmap \"b\" 1\nend 2\n",
    ),
    (
        "rangestore 1\nlimit 1\n1 put \"a\" 1\n2 get \"b\"\n2 get \"a\"\n1 commit\n",
        0,
        "1 put \"a\" ok\n2 outoflocks\n2 gone\n1 commit\nmap \"a\" 1\nend 1\n",
    ),
    ("rangestore 1\nlimit 1\n", 0, "end 0\n"),
    (
        "rangestore 1\nlimit 64\n1 get -\n",
        3,
        "refused 3 2 bad line\n",
    ),
    (
        "rangestore 1\nlimit 64\n1 commit\n1 commit\n",
        3,
        "refused 4 8 after end\n",
    ),
];

#[test]
fn scripts_are_played(rt: HostRuntime) -> Result<(), Fail> {
    let alloc = rt.alloc();
    for (script, wanted, text) in PLAYED {
        let (status, written) = run_failing(&rt, alloc, &["store"], script, None, None)?;
        assert_eq!(rt; status, wanted, "on {script}");
        assert_eq!(rt; written.as_slice(), text.as_bytes(), "on {script}");
    }
    Ok(())
}

#[test]
fn a_trace_is_no_script(rt: HostRuntime) -> Result<(), Fail> {
    let alloc = rt.alloc();
    let trace = "rangelock 1\ntrees 1\nlimit 64\nbuffer 0\n";
    let (status, written) = run_failing(&rt, alloc, &["store"], trace, None, None)?;
    assert_eq!(rt; status, 3);
    assert_eq!(rt; written.as_slice(), b"refused 1 1 bad header\n".as_slice());
    Ok(())
}

#[test]
fn each_end_may_fail_at_a_script(rt: HostRuntime) -> Result<(), Fail> {
    let alloc = rt.alloc();
    let (script, _, text) = PLAYED[0];
    let (status, written) = run_failing(&rt, alloc, &["store"], script, Some(1), None)?;
    assert_eq!(rt; status, 4);
    assert_eq!(rt; written.len(), 0);
    let (status, written) = run_failing(&rt, alloc, &["store"], script, None, Some(2))?;
    assert_eq!(rt; status, 5);
    assert!(rt; text.as_bytes().starts_with(&written) && written.len() < text.len());
    Ok(())
}

#[test]
fn a_script_tells_no_watch(rt: HostRuntime) -> Result<(), Fail> {
    let alloc = rt.alloc();
    for (script, wanted, _) in PLAYED {
        assert_eq!(rt;
            joins_told(&rt, alloc, &["store"], script, 64)?,
            (wanted, 0)
        );
    }
    Ok(())
}
