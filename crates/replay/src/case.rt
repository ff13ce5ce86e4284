// The cases, by the letter that each begins with, and those whose calls may change the image.
use crate::listed::{MAX_IMAGE, MAX_WINDOW, Numbers, Words, print_answer};
use crate::read_only;
use std::io;

// The cases of a text, one after the other: each is a byte at least.
pub fn replay(rt: &impl Print, text: &[u8]) -> io::Result<()> {
    let list = &mut Numbers::of(text);
    for _ in text {
        match list.mark() {
            Some(mark) => item(rt, mark, list)?,
            None => return Ok(()),
        }
    }
    Ok(())
}

fn item(rt: &impl Print, mark: u8, list: &mut Numbers) -> io::Result<()> {
    match mark {
        b'#' => comment(rt, list),
        b'p' => plain_call(rt, list.behind_letter()),
        b'g' => unblock_group(rt, list.behind_letter()),
        b'c' => commit(rt, list.behind_letter()),
        b'd' => call_in_window(rt, list.behind_letter()),
        b'w' => read_only::total_weight(rt, list.behind_letter()),
        b'a' => read_only::ask(rt, list.behind_letter()),
        b's' => read_only::share(rt, list.behind_letter()),
        b't' => read_only::share_of_all(rt, list.behind_letter()),
        b'h' => read_only::humblest(rt, list.behind_letter()),
        b'r' => read_only::rival(rt, list.behind_letter()),
        b'o' => read_only::apart(rt, list.behind_letter()),
        _ => call(rt, list),
    }
}

// A line that is printed as it is.
fn comment(rt: &impl Print, list: &mut Numbers) -> io::Result<()> {
    rt.write_all(list.line())?;
    println!(rt)
}

fn call(rt: &impl Print, list: &mut Numbers) -> io::Result<()> {
    let [operation, cpu, time, context] = list.take::<4>();
    let image = &mut Words::<MAX_IMAGE>::none();
    image.read(list);
    let a = ronthuyal::ronthuyal_call(image.lent(), operation, cpu, time, context);
    print_answer(rt, a, image)
}

fn plain_call(rt: &impl Print, list: &mut Numbers) -> io::Result<()> {
    let [operation, cpu, time, context] = list.take::<4>();
    let image = &mut Words::<MAX_IMAGE>::none();
    image.read(list);
    let a = ronthuyal::ronthuyal_plain_call(image.lent(), operation, cpu, time, context);
    print_answer(rt, a, image)
}

fn unblock_group(rt: &impl Print, list: &mut Numbers) -> io::Result<()> {
    let [cpu, time, mask] = list.take::<3>();
    let image = &mut Words::<MAX_IMAGE>::none();
    image.read(list);
    let a = ronthuyal::ronthuyal_unblock_group(image.lent(), cpu, time, mask);
    print_answer(rt, a, image)
}

fn commit(rt: &impl Print, list: &mut Numbers) -> io::Result<()> {
    let [cpu, time, refusal, res, in_charge, current, v] = list.take::<7>();
    let image = &mut Words::<MAX_IMAGE>::none();
    image.read(list);
    let a = ronthuyal::ronthuyal_commit(
        image.lent(),
        cpu,
        time,
        refusal,
        res,
        in_charge,
        current,
        v,
    );
    print_answer(rt, a, image)
}

fn call_in_window(rt: &impl Print, list: &mut Numbers) -> io::Result<()> {
    let [operation, cpu, time, context] = list.take::<4>();
    let window = &mut Words::<MAX_WINDOW>::none();
    window.read(list);
    let image = &mut Words::<MAX_IMAGE>::none();
    image.read(list);
    let a = ronthuyal::ronthuyal_call_in_window(
        image.lent(),
        window.lent(),
        operation,
        cpu,
        time,
        context,
    );
    println!(rt;
        "{} {} {} {} {image} {window}",
        a.refusal, a.result, a.interrupt, a.rule
    )
}
