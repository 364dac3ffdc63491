// Prints what `report::report` gives for hand-in texts: the file stdout beside this folder is what another implementation answers, model.py.
#![tactic(auto)]

use std::io;

fn prints(rt: &impl Print, text: &[u8]) -> io::Result<()> {
    let mut output = [7u8; 1024];
    let n = report::report(text, &mut output);
    rt.write_all(&output[..n])
}

// The text on standard input: t = 15, d = 64, and 30 shares of which 28 survive.
fn largest(rt: &(impl Print + Input + AllocGlobal)) -> io::Result<()> {
    let text = samples::read_all(rt.alloc(), &mut rt.reader())?;
    prints(rt, &text)
}

fn too_long(rt: &impl Print) -> io::Result<()> {
    let long = [0u8; 40001];
    prints(rt, &long)
}

// Opened: the sample, two members by quorum 2, one survivor that does not agree, two words.
fn opened(rt: &impl Print) -> io::Result<()> {
    prints(
        rt,
        b"D\t1\t1\t0\t1\nP\t1\t253\t255\t1015\t2281\t1\t1\t1\t2\t1\t3\nP\t2\t256\t259\t1028\t2309\t2\t1\t2\t2\t2\t3\nP\t3\t300\t263\t1041\t2337\t3\t1\t3\t2\t3\t3\n",
    )?;
    prints(
        rt,
        b"D\t1\t1\t2\t1\nP\t2\t256\t259\t1028\t2309\t2\t1\t2\t2\t2\t3\nP\t1\t253\t255\t1015\t2281\t1\t1\t1\t2\t1\t3\n",
    )?;
    prints(
        rt,
        b"D\t2\t2\t0\t1\n\
          P\t1\t0\t0\t0\t0\t0\t0\t0\t0\t0\t0\t0\t0\t0\t0\t0\t0\t0\n\
          P\t2\t0\t0\t0\t0\t0\t0\t0\t0\t0\t0\t0\t0\t0\t0\t0\t0\t0\n\
          P\t3\t0\t0\t0\t0\t0\t0\t0\t0\t0\t0\t0\t0\t0\t0\t0\t0\t0\n\
          P\t4\t1\t0\t0\t0\t0\t0\t0\t0\t0\t0\t0\t0\t0\t0\t0\t0\t0\n\
          P\t5\t0\t0\t0\t0\t0\t0\t0\t0\t0\t0\t0\t0\t0\t0\t0\t0\t0\n",
    )?;
    prints(
        rt,
        b"D\t1\t2\t2\t1\nP\t1\t5\t65520\t0\t0\t0\t0\t0\t0\t0\t0\t0\nP\t3\t5\t65520\t0\t0\t0\t0\t0\t0\t0\t0\t0\n",
    )
}

// Refused with 13 and 14.
fn unmet(rt: &impl Print) -> io::Result<()> {
    prints(rt, b"D\t1\t1\t1\t1\n")?;
    prints(
        rt,
        b"D\t1\t1\t4\t1\nP\t1\t253\t255\t1015\t2281\t1\t1\t1\t2\t1\t3\nP\t2\t256\t259\t1028\t2309\t2\t1\t2\t2\t2\t3\nP\t3\t259\t263\t1041\t2337\t3\t1\t3\t2\t3\t3\n",
    )?;
    prints(rt, b"D\t1\t1\t0\t1\n")?;
    prints(
        rt,
        b"D\t1\t1\t0\t1\nP\t1\t253\t255\t1015\t2281\t1\t1\t1\t2\t1\t3\n",
    )?;
    prints(
        rt,
        b"D\t1\t1\t0\t1\nP\t2\t256\t259\t1028\t2309\t2\t1\t2\t2\t2\t3\nP\t1\t253\t255\t1015\t2281\t1\t1\t1\t2\t1\t3\n",
    )?;
    prints(
        rt,
        b"D\t1\t1\t2\t1\nP\t1\t253\t255\t1015\t2281\t1\t1\t1\t2\t1\t3\nP\t2\t256\t259\t1028\t2309\t2\t1\t2\t2\t2\t65521\n",
    )
}

// Refused with 15 and 16.
fn unopened(rt: &impl Print) -> io::Result<()> {
    prints(
        rt,
        b"D\t1\t1\t2\t1\nP\t1\t253\t255\t1015\t2281\t1\t1\t1\t2\t1\t3\nP\t2\t256\t0\t1028\t2309\t2\t1\t2\t2\t2\t3\n",
    )?;
    prints(
        rt,
        b"D\t1\t1\t0\t1\nP\t1\t253\t0\t0\t0\t0\t0\t0\t0\t0\t0\nP\t2\t256\t0\t0\t0\t0\t0\t0\t0\t0\t0\nP\t3\t300\t0\t0\t0\t0\t0\t0\t0\t0\t0\n",
    )?;
    prints(
        rt,
        b"D\t2\t2\t0\t1\n\
          P\t1\t0\t0\t0\t0\t0\t0\t0\t0\t0\t0\t0\t0\t0\t0\t0\t0\t0\n\
          P\t2\t0\t0\t0\t0\t0\t0\t0\t0\t0\t0\t0\t0\t0\t0\t0\t0\t0\n\
          P\t3\t0\t0\t0\t0\t0\t0\t0\t0\t0\t0\t0\t0\t0\t0\t0\t0\t0\n\
          P\t4\t1\t0\t0\t0\t0\t0\t0\t0\t0\t0\t0\t0\t0\t0\t0\t0\t0\n\
          P\t5\t0\t1\t0\t0\t0\t0\t0\t0\t0\t0\t0\t0\t0\t0\t0\t0\t0\n",
    )
}

// Shares of another day, refused with 15; and member 3's share of day 2 beside two of day 1, opened for either.
fn other_days(rt: &impl Print) -> io::Result<()> {
    prints(
        rt,
        b"D\t1\t1\t0\t2\nP\t1\t253\t255\t1015\t2281\t1\t1\t1\t2\t1\t3\nP\t2\t256\t259\t1028\t2309\t2\t1\t2\t2\t2\t3\nP\t3\t259\t263\t1041\t2337\t3\t1\t3\t2\t3\t3\n",
    )?;
    prints(
        rt,
        b"D\t1\t1\t0\t1\nP\t1\t253\t255\t1015\t2281\t1\t1\t1\t2\t1\t3\nP\t2\t256\t259\t1028\t2309\t2\t1\t2\t2\t2\t3\nP\t3\t259\t264\t1043\t2340\t3\t1\t3\t2\t3\t3\n",
    )?;
    prints(
        rt,
        b"D\t1\t1\t0\t2\nP\t1\t253\t255\t1015\t2281\t1\t1\t1\t2\t1\t3\nP\t2\t256\t259\t1028\t2309\t2\t1\t2\t2\t2\t3\nP\t3\t259\t264\t1043\t2340\t3\t1\t3\t2\t3\t3\n",
    )
}

// Refused with 22, 23 and 24.
fn unread(rt: &impl Print) -> io::Result<()> {
    prints(rt, b"")?;
    prints(rt, b"D\t1\t1\t0\t1")?;
    prints(rt, b"D\t1\t1\t0\n")?;
    prints(rt, b"D\t1\t1\t0\t0\n")?;
    prints(rt, b"D\t1\t1\t0\t65521\n")?;
    prints(
        rt,
        b"D\t1\t1\t0\t1\nP\t1\t253\t255\t1015\t2281\t1\t1\t1\t2\t1\t3\n\n",
    )?;
    prints(
        rt,
        b"D\t1\t1\t0\t1\nP\t1\t253\t255\t1015\t2281\t1\t1\t1\t2\t1\t3\nP\t2\t256\t259\t1028\t2309\t2\t1\t2\t2\t2\t3\nP\t1\t253\t255\t1015\t2281\t1\t1\t1\t2\t1\t3\n",
    )
}

fn main(rt: HostRuntime) -> io::Result<()> {
    largest(&rt)?;
    too_long(&rt)?;
    opened(&rt)?;
    unmet(&rt)?;
    unopened(&rt)?;
    other_days(&rt)?;
    unread(&rt)
}
