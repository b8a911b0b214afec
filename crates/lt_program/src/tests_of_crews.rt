//! What the program writes where a crew plays: the order of events is not fixed where transactions meet.
use crate::tests::{HEADER, run_failing};
use std::test::Fail;

/// What is shown, the lines of the body, and the end of the transcript.
const CREWS: [(&str, &str, &str); 4] = [
    ("an empty trace", "", "end 0 0\n"),
    (
        "one transaction",
        "1 try 0 \"a\" \"c\"\n1 end\n",
        "0 1 ask 0 \"a\" \"c\" granted\n1 1 free 0 \"a\" \"c\" 1\ntxn 1 done\nend 2 0\n",
    ),
    (
        "two that do not meet",
        "1 try 0 \"a\" \"c\"\n2 try 0 \"d\" \"e\"\n1 end\n2 abort\n",
        "txn 1 done\ntxn 2 aborted\nend 4 0\n",
    ),
    (
        "two that want one range",
        "1 lock 0 \"a\" \"a\"\n2 lock 0 \"a\" \"c\"\n",
        " 0\n",
    ),
];

#[test]
fn crews_play(rt: HostRuntime) -> Result<(), Fail> {
    let alloc = rt.alloc();
    for (name, lines, end) in CREWS {
        let input = format!(in alloc; "{HEADER}{lines}")?;
        for workers in ["1", "2", "16"] {
            let (status, written) = run_failing(
                &rt,
                alloc,
                &["crew", workers],
                input.as_str(),
                None,
                None,
            )?;
            assert_eq!(rt; status, 0, "at {name}");
            assert!(rt; written.ends_with(end.as_bytes()), "at {name}");
        }
    }
    Ok(())
}

#[test]
fn no_crew_plays_what_is_no_trace(rt: HostRuntime) -> Result<(), Fail> {
    let alloc = rt.alloc();
    let input = format!(in alloc; "{HEADER}1 end\n1 end\n")?;
    let (status, written) = run_failing(&rt, alloc, &["crew", "2"], input.as_str(), None, None)?;
    assert_eq!(rt; status, 3);
    assert_eq!(rt; written.as_slice(), b"refused 6 8 after end\n".as_slice());
    let (status, _) = run_failing(&rt, alloc, &["crew", "2"], input.as_str(), Some(0), None)?;
    assert_eq!(rt; status, 4);
    let (status, _) = run_failing(&rt, alloc, &["crew", "2"], input.as_str(), None, Some(1))?;
    assert_eq!(rt; status, 5);
    Ok(())
}
