//! Programs, which are written as they were read, and what the checker and the two promises say of them.
use crate::answers::is_printed;
use std::alloc::{AllocError, Global};
use std::str;
use std::test::Fail;
use u_check::{Checked, Job, Table, check};
use u_determinate::{Determinacy, Meeting, determinacy, strictness, strictness_of_job};
use u_plain::examples::DOUBLE;
use u_program::{Program, ReadError, read};

/// Whether the program is written so.
fn is_program_written(alloc: Global, program: &Program, wanted: &str) -> Result<bool, AllocError> {
    let mut out = Vec::new(alloc);
    program.write_text(&mut out)?;
    Ok(out.as_slice() == wanted.as_bytes())
}

/// Changes of the double, the words for the first rule that it then breaks, if any, else whether it is
/// strict, and whether it is determinate.
const CHANGES: &[(&str, &str, &str, bool)] = &[
    ("", "", "strict", true),
    ("2.1 2.2", "2.1", "rule 16 block 1 statement 2", false),
    (
        "3.1\n3 0 end ->\n",
        "3.1 4.1\n3 0 end ->\n4 0 end ->\n",
        "not strict rule 2 block 1 at 4",
        false,
    ),
];

/// The rows. A proof that calls this knows none of them, and so is short.
fn changes() -> &'static [(&'static str, &'static str, &'static str, bool)] {
    CHANGES
}

/// Whether it is said rightly whether the program is determinate: where it is not, two `end`s meet at
/// statement 4.
fn is_judged(alloc: Global, checked: &Checked, wanted: bool) -> Result<bool, AllocError> {
    Ok(match determinacy(alloc, checked)? {
        Determinacy::Determinate => wanted,
        Determinacy::Meets(place) => {
            !wanted && matches!(place.meeting, Meeting::Ends) && place.block == 1 && place.at == 4
        }
    })
}

/// Whether that is said of the strictness of the program, and of that of a job of it.
fn is_strict_so(alloc: Global, checked: Checked, wanted: &str) -> Result<bool, AllocError> {
    let said = strictness(alloc, &checked)?;
    let job = Job::new(checked, 5, Table::new(alloc));
    let again = strictness_of_job(alloc, &job)?;
    Ok(said == again && job.argument() == 5 && is_printed(alloc, &said, wanted)?)
}

/// Whether that is said of the program.
fn is_said(
    alloc: Global,
    program: Program,
    wanted: &str,
    determinate: bool,
) -> Result<bool, AllocError> {
    match check(program) {
        Ok(checked) => {
            let judged = is_judged(alloc, &checked, determinate)?;
            Ok(judged && is_strict_so(alloc, checked, wanted)?)
        }
        Err(refused) => is_printed(alloc, &refused.breach, wanted),
    }
}

/// Whether the program of that text is written so, and that is said of it.
fn is_said_of(
    alloc: Global,
    text: &str,
    wanted: &str,
    determinate: bool,
) -> Result<bool, ReadError> {
    let program = read(alloc, text.as_bytes())?;
    let is_written = is_program_written(alloc, &program, text)?;
    Ok(is_written && is_said(alloc, program, wanted, determinate)?)
}

#[test]
fn programs_are_judged(rt: HostRuntime) -> Result<(), Fail> {
    let double = str::from_utf8(DOUBLE)?;
    for (old, new, wanted, determinate) in changes() {
        let text = double.replace(rt.alloc(), old, new)?;
        assert!(rt;
            is_said_of(rt.alloc(), text.as_str(), wanted, *determinate)?,
            "{new}"
        );
    }
    Ok(())
}
