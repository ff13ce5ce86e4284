// The cases whose calls only read the image or the window.
use crate::listed::{MAX_IMAGE, MAX_WINDOW, Numbers, Words, print_answer};
use std::io;

pub fn total_weight(rt: &impl Print, list: &mut Numbers) -> io::Result<()> {
    let cpu = list.next();
    let image = &mut Words::<MAX_IMAGE>::none();
    image.read(list);
    print_answer(
        rt,
        ronthuyal::ronthuyal_total_weight(image.all(), cpu),
        image,
    )
}

pub fn ask(rt: &impl Print, list: &mut Numbers) -> io::Result<()> {
    let [cpu, time] = list.take::<2>();
    let image = &mut Words::<MAX_IMAGE>::none();
    image.read(list);
    let a = ronthuyal::ronthuyal_ask(image.all(), cpu, time);
    println!(rt;
        "{} {} {} {} {}",
        a.refusal, a.result, a.in_charge, a.current, a.v
    )
}

pub fn share(rt: &impl Print, list: &mut Numbers) -> io::Result<()> {
    let [contexts, context] = list.take::<2>();
    let window = &mut Words::<MAX_WINDOW>::none();
    window.read(list);
    print_answer(
        rt,
        ronthuyal::ronthuyal_share(window.all(), contexts, context),
        window,
    )
}

pub fn share_of_all(rt: &impl Print, list: &mut Numbers) -> io::Result<()> {
    let contexts = list.next();
    let window = &mut Words::<MAX_WINDOW>::none();
    window.read(list);
    print_answer(
        rt,
        ronthuyal::ronthuyal_share_of_all(window.all(), contexts),
        window,
    )
}

pub fn humblest(rt: &impl Print, list: &mut Numbers) -> io::Result<()> {
    let [cpu, time, context] = list.take::<3>();
    let image = &mut Words::<MAX_IMAGE>::none();
    image.read(list);
    let h = ronthuyal::ronthuyal_humblest(image.all(), cpu, time, context);
    println!(rt; "{} {} {}", h.refusal, h.found, h.priority)
}

pub fn rival(rt: &impl Print, list: &mut Numbers) -> io::Result<()> {
    let [cpu, time, writer, rival, rounds] = list.take::<5>();
    let image = &mut Words::<MAX_IMAGE>::none();
    image.read(list);
    let g = ronthuyal::ronthuyal_rival(image.all(), cpu, time, writer, rival, rounds);
    println!(rt; "{} {} {}", g.refusal, g.forced, g.choice)
}

pub fn apart(rt: &impl Print, list: &mut Numbers) -> io::Result<()> {
    let [one, other] = list.take::<2>();
    let image = &mut Words::<MAX_IMAGE>::none();
    image.read(list);
    print_answer(
        rt,
        ronthuyal::ronthuyal_apart(image.all(), one, other),
        image,
    )
}
