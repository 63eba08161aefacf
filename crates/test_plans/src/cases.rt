// Texts, each with its answer.
ghost use Rattle.std.specs.Prelude.{◌≤◌, length};

use std::io;

// Where the text of a case begins: behind the first colon.
fn text_from(case: &[u8]) -> usize
    ensures { result ≤ length case.now }
{
    for (i, octet) in case.iter().enumerate() {
        if *octet == b':' {
            return i + 1;
        }
    }
    case.len()
}

// A case: its name, a colon, and its text, which plan-list would read.
fn show(rt: &impl Print, case: &[u8]) -> io::Result<()> {
    let mut out = [0u8; 512];
    let from = text_from(case);
    let length = run_list::answer(&case[from..], &mut out);
    rt.write_all(&case[..from])?;
    rt.write_all(b"\n")?;
    rt.write_all(&out[..length])
}

fn unreadable(rt: &impl Print) -> io::Result<()> {
    show(rt, b"no input:")?;
    show(rt, b"no last line feed:1 1 120")?;
    show(rt, b"two spaces:1  1 120\n")?;
    show(rt, b"a space at the end:1 1 120 \n")?;
    show(rt, b"00 for 0:00 1 120\n")?;
    show(rt, b"a leading zero:1 01 120\n")?;
    show(rt, b"four digits:1 1 0120\n")?;
    show(rt, b"two numbers:1 120\n")?;
    show(rt, b"an empty line:1 1 120\n\n")?;
    show(rt, b"a carriage return:1 1 120\r\n")?;
    show(rt, b"a letter:1 a 120\n")
}

fn too_long(rt: &impl Print) -> io::Result<()> {
    show(
        rt,
        b"nine lines:5 11 10\n5 10 10\n5 9 10\n5 8 10\n5 7 10\n5 6 10\n5 5 10\n5 4 10\n5 3 40\n",
    )?;
    show(
        rt,
        b"129 octets:5 11 100\n5 10 100\n5 9 100\n5 8 100\n5 7 100\n5 6 100\n5 5 100\n5 4 100\n5 3 100\n5 2 100\n5 1 100\n4 11 100\n4 10 100\n4 9 100\n4 8 100\n1 1 5",
    )
}

fn refused_plans(rt: &impl Print) -> io::Result<()> {
    show(rt, b"a count of 995:1 1 995\n")?;
    show(rt, b"a count of 996:1 1 996\n")?;
    show(rt, b"a count of 0:2 1 120\n1 1 0\n")?;
    show(rt, b"115 alone:1 1 115\n")?;
    show(rt, b"116 and 4:2 1 116\n1 1 4\n")?;
    show(rt, b"modulation 6:6 1 120\n")?;
    show(rt, b"rate 12:1 12 120\n")?;
    show(rt, b"groups that rise:1 1 60\n2 1 60\n")?;
    show(rt, b"equal groups:1 1 60\n1 1 60\n")?;
    show(rt, b"rate 12 in the last group:2 1 60\n1 12 60\n")?;
    show(rt, b"the last groups rise:5 1 40\n1 1 40\n2 1 40\n")
}

// Texts and plans that are wrong in two ways: the first rule that is broken gives the number.
fn wrong_twice(rt: &impl Print) -> io::Result<()> {
    show(rt, b"a leading zero and rate 12:1 12 0120\n")?;
    show(
        rt,
        b"nine lines and rate 12:5 12 10\n5 11 10\n5 10 10\n5 9 10\n5 8 10\n5 7 10\n5 6 10\n5 5 10\n5 4 40\n",
    )?;
    show(
        rt,
        b"nine lines that rise:5 1 10\n5 2 10\n5 3 10\n5 4 10\n5 5 10\n5 6 10\n5 7 10\n5 8 10\n5 9 40\n",
    )?;
    show(
        rt,
        b"nine lines and 125 slots:5 9 10\n5 8 10\n5 7 10\n5 6 10\n5 5 10\n5 4 10\n5 3 10\n5 2 10\n5 1 45\n",
    )?;
    show(rt, b"4 and 116 that rise:1 1 4\n2 1 116\n")?;
    show(rt, b"rate 12 and 115 slots:1 12 115\n")?;
    show(rt, b"groups that rise and 115 slots:1 1 5\n2 1 110\n")
}

fn accepted_plans(rt: &impl Print) -> io::Result<()> {
    show(rt, b"115 and 5:2 1 115\n1 1 5\n")?;
    show(rt, b"one group without dummies:5 11 120\n")?;
    show(
        rt,
        b"eight groups:5 7 5\n5 1 10\n4 7 15\n3 6 20\n3 5 25\n2 3 20\n1 2 15\n1 1 10\n",
    )
}

pub fn run(rt: &impl Print) -> io::Result<()> {
    unreadable(rt)?;
    too_long(rt)?;
    refused_plans(rt)?;
    wrong_twice(rt)?;
    accepted_plans(rt)
}
