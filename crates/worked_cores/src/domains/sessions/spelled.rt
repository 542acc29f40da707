//! The bytes of each message, as a Python script spells them by the table of `docs/FORMATS.md`.
use crate::checks::holds;
use arrayvec::ArrayVec;
use host_messages::{ClientMessage, HostMessage, Lent, Question, Wanted, Welcome};
use std::process::Abort;

const NAME: [u8; 16] = [1, 2, 3, 4, 5, 6, 7, 8, 9, 10, 11, 12, 13, 14, 15, 16];

const HELLO: [u8; 8] = [1, 0, 0, 0, 2, 0, 0, 0];

const HELLO_NAMED: [u8; 32] = [
    1, 0, 0, 0, 2, 0, 0, 0, 1, 2, 3, 4, 5, 6, 7, 8, 9, 10, 11, 12, 13, 14, 15, 16, 9, 0, 0, 0, 1,
    0, 0, 0,
];

const ASK: [u8; 40] = [
    2, 0, 0, 0, 2, 0, 0, 0, 7, 0, 0, 0, 0, 0, 0, 0, 136, 119, 102, 85, 68, 51, 34, 17, 3, 0, 0, 0,
    0, 1, 0, 128, 255, 255, 255, 255, 255, 255, 255, 255,
];

const LEND: [u8; 8] = [3, 0, 0, 0, 128, 0, 0, 0];

const RELEASE: [u8; 24] = [
    4, 0, 0, 0, 2, 0, 0, 0, 5, 0, 0, 0, 1, 0, 0, 0, 2, 1, 0, 0, 0, 0, 0, 0,
];

const WELCOME: [u8; 40] = [
    17, 0, 0, 0, 2, 0, 0, 0, 1, 2, 3, 4, 5, 6, 7, 8, 9, 10, 11, 12, 13, 14, 15, 16, 112, 17, 1, 0,
    239, 190, 173, 222, 128, 0, 0, 0, 25, 0, 0, 0,
];

const SEEN: [u8; 11] = [18, 0, 0, 0, 3, 0, 0, 0, 1, 0, 1];

const LOANS: [u8; 40] = [
    19, 0, 0, 0, 2, 0, 0, 0, 4, 0, 0, 0, 3, 0, 0, 0, 2, 1, 0, 0, 2, 0, 0, 0, 0, 0, 0, 0, 0, 0, 0,
    0, 255, 255, 255, 255, 0, 0, 0, 0,
];

/// Whether the client's message has these bytes, and these bytes are that message.
fn is_client(message: &ClientMessage, bytes: &[u8]) -> bool {
    message.to_bytes().as_slice() == bytes
        && ClientMessage::from_bytes(bytes).as_ref() == Ok(message)
}

/// The same of a host's.
fn is_host(message: &HostMessage, bytes: &[u8]) -> bool {
    message.to_bytes().as_slice() == bytes && HostMessage::from_bytes(bytes).as_ref() == Ok(message)
}

#[test]
fn messages_of_clients(rt: HostRuntime) {
    let mut questions = ArrayVec::new();
    questions.push(Question {
        page: 7,
        fingerprint: 0x1122_3344_5566_7788,
        is_passing: false,
    });
    questions.push(Question {
        page: (1 << 40) + 3,
        fingerprint: u64::MAX,
        is_passing: true,
    });
    let mut slots = ArrayVec::new();
    slots.push((1 << 32) + 5);
    slots.push(258);
    holds(&rt, is_client(&ClientMessage::Hello(None), &HELLO));
    let wanted = Wanted {
        name: NAME,
        loans: (1 << 32) + 9,
    };
    holds(
        &rt,
        is_client(&ClientMessage::Hello(Some(wanted)), &HELLO_NAMED),
    );
    holds(&rt, is_client(&ClientMessage::Ask(questions), &ASK));
    holds(&rt, is_client(&ClientMessage::Lend(128), &LEND));
    holds(&rt, is_client(&ClientMessage::Release(slots), &RELEASE));
}

#[test]
fn messages_of_a_host(rt: HostRuntime) {
    let welcome = Welcome {
        name: NAME,
        frames: 70_000,
        salt: 0xdead_beef,
        most: 128,
        client_cpu: 25,
    };
    let mut seen = ArrayVec::new();
    seen.push(true);
    seen.push(false);
    seen.push(true);
    let mut loans = ArrayVec::new();
    loans.push(Lent {
        slot: (3 << 32) + 4,
        frame: 258,
        sharers: 2,
    });
    loans.push(Lent {
        slot: 0,
        frame: u32::MAX,
        sharers: 0,
    });
    holds(&rt, is_host(&HostMessage::Welcome(welcome), &WELCOME));
    holds(&rt, is_host(&HostMessage::Seen(seen), &SEEN));
    holds(&rt, is_host(&HostMessage::Loans(loans), &LOANS));
}
