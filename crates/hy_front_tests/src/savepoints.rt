//! Savepoints in scripts: where they may stand, and which names are open.

use hy_script::{Options, ReadError, read};
use std::alloc::{AllocError, Global};
use std::process::Abort;
use std::test::Fail;

/// What becomes of a script: the line and the number of the cause of its refusal, or nothing where it is read.
fn refusal_of(alloc: Global, script: &str) -> Result<Option<(u64, u8)>, AllocError> {
    let options = Options { chunks: 1, rows: 4 };
    match read(alloc, script.as_bytes(), &options) {
        Ok(_) => Ok(None),
        Err(ReadError::Refused(refused)) => Ok(Some((refused.line, refused.code.number()))),
        Err(ReadError::OutOfMemory) => Err(AllocError),
    }
}

/// The same of a transaction with these statements, which begin on line 3.
fn refusal_within(
    alloc: Global,
    begin: &str,
    statements: &str,
) -> Result<Option<(u64, u8)>, AllocError> {
    let mut script = String::from_str(alloc, "SESSION a;\n")?;
    script.push_str(begin)?;
    script.push_str(";\n")?;
    script.push_str(statements)?;
    script.push_str(" COMMIT; END;")?;
    refusal_of(alloc, script.as_str())
}

/// A transaction's statements, and how they are refused.
const STATEMENTS: [(&str, Option<(u64, u8)>); 19] = [
    ("SAVEPOINT s;", None),
    ("SAVEPOINT\n1;", Some((4, 4))),
    ("SAVEPOINT\nto;", Some((4, 4))),
    ("RELEASE\nto;", Some((4, 4))),
    ("SAVEPOINT s; ROLLBACK TO\n;", Some((4, 4))),
    ("SAVEPOINT s; ROLLBACK\ns;", Some((4, 4))),
    ("ROLLBACK TO s;", Some((3, 21))),
    ("RELEASE s;", Some((3, 21))),
    ("SAVEPOINT s; RELEASE s; ROLLBACK TO s;", Some((3, 21))),
    ("SAVEPOINT s;\nROLLBACK TO t;", Some((4, 21))),
    ("SAVEPOINT S;\nROLLBACK TO s;", Some((4, 21))),
    ("SAVEPOINT s; ROLLBACK TO s; ROLLBACK TO s;", None),
    (
        "SAVEPOINT s; SAVEPOINT t; ROLLBACK TO s;\nRELEASE t;",
        Some((4, 21)),
    ),
    (
        "SAVEPOINT s; SAVEPOINT t; RELEASE s;\nROLLBACK TO t;",
        Some((4, 21)),
    ),
    ("SAVEPOINT s; SAVEPOINT t; RELEASE t; ROLLBACK TO s;", None),
    ("SAVEPOINT s; SAVEPOINT s; RELEASE s; ROLLBACK TO s;", None),
    (
        "SAVEPOINT s; SAVEPOINT t; SAVEPOINT s; RELEASE s; RELEASE t;",
        None,
    ),
    ("SAVEPOINT s; COMMIT; BEGIN;\nROLLBACK TO s;", Some((4, 21))),
    ("SAVEPOINT s; ROLLBACK; BEGIN;\nRELEASE s;", Some((4, 21))),
];

#[test]
fn names_are_open(rt: HostRuntime) -> Result<(), Fail> {
    let alloc = rt.alloc();
    for (statements, refusal) in STATEMENTS {
        assert!(rt;
            refusal_within(alloc, "BEGIN", statements)? == refusal,
            "{statements}"
        );
    }
    let reads = "SAVEPOINT s; ROLLBACK TO s; RELEASE s;";
    assert_eq!(rt; refusal_within(alloc, "BEGIN READ ONLY", reads)?, None);
    Ok(())
}

#[test]
fn they_stand_in_transactions_alone(rt: HostRuntime) -> Result<(), Fail> {
    let alloc = rt.alloc();
    for (script, line) in [
        ("SAVEPOINT s; END;", 1),
        ("ROLLBACK TO s; END;", 1),
        ("SESSION a;\nRELEASE s; END;", 2),
        ("SESSION a; BEGIN; ROLLBACK;\nROLLBACK TO s; END;", 2),
        ("SESSION a; SCHEDULE;\nSAVEPOINT s; END;", 2),
    ] {
        assert!(rt; refusal_of(alloc, script)? == Some((line, 4)), "{script}");
    }
    Ok(())
}

/// A statement, each on a line of its own, so many times, and behind them another.
fn many(
    alloc: Global,
    statement: &str,
    count: usize,
    last: &str,
) -> Result<Option<(u64, u8)>, AllocError> {
    let mut statements = String::from_str(alloc, "SAVEPOINT s;\n")?;
    for _ in 0..count {
        statements.push_str(statement)?;
        statements.push_str(";\n")?;
    }
    statements.push_str(last)?;
    refusal_within(alloc, "BEGIN", statements.as_str())
}

#[test]
fn sixteen_are_open(rt: HostRuntime) -> Result<(), Fail> {
    let alloc = rt.alloc();
    assert_eq!(rt; many(alloc, "SAVEPOINT s", 15, "")?, None);
    assert_eq!(rt; many(alloc, "SAVEPOINT s", 16, "")?, Some((19, 9)));
    assert_eq!(rt;
        many(alloc, "SAVEPOINT s", 15, "RELEASE s; SAVEPOINT t;")?,
        None
    );
    let again = many(alloc, "SAVEPOINT s", 15, "ROLLBACK TO s;\nSAVEPOINT t;")?;
    assert_eq!(rt; again, Some((20, 9)));
    Ok(())
}

#[test]
fn they_count_among_the_statements(rt: HostRuntime) -> Result<(), Fail> {
    let alloc = rt.alloc();
    assert_eq!(rt; many(alloc, "ROLLBACK TO s", 255, "")?, None);
    assert_eq!(rt; many(alloc, "ROLLBACK TO s", 256, "")?, Some((259, 9)));
    // A name of which none is open is told before.
    assert_eq!(rt;
        many(alloc, "ROLLBACK TO s", 255, "RELEASE t;")?,
        Some((259, 21))
    );
    Ok(())
}
