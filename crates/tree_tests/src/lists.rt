//! Tests of hot_units and hot_model.
use hot_model::{Answer, AnswerList, Answered};
use hot_units::{Body, BodyList, KeyList, body_of};
use std::process::Abort;

#[test]
fn a_list_grows_at_its_end(rt: HostRuntime) {
    let mut keys = KeyList::new(rt.alloc());
    assert!(rt; keys.len() == 0);
    for key in [1, 8, 15] {
        keys.push(key).expect(&rt, "memory");
    }
    assert!(rt; keys.as_slice() == [1, 8, 15].as_slice());
    assert!(rt; keys.get(2) == Some(&15) && keys.get(3).is_none());
}

#[test]
fn a_list_gives_back_its_end(rt: HostRuntime) {
    let mut keys = KeyList::new(rt.alloc());
    assert!(rt; keys.get(0).is_none() && keys.pop().is_none());
    keys.push(8).expect(&rt, "memory");
    keys.push(15).expect(&rt, "memory");
    assert!(rt; keys.pop() == Some(15) && keys.len() == 1);
}

fn key_is(rt: &impl Abort, item: Option<&Answered>, key: u64) {
    assert_eq!(rt; item.expect(rt, "an answer").key, key);
}

#[test]
fn a_list_of_answers(rt: HostRuntime) {
    let mut answers = AnswerList::new(rt.alloc());
    let answer = Answer::Bodies(BodyList::new(rt.alloc()));
    assert!(rt; answers.push(Answered { key: 12, answer }).is_ok());
    key_is(&rt, answers.get(0), 12);
    key_is(&rt, answers.pop().as_ref(), 12);
    assert!(rt; answers.len() == 0);
}

fn body_is(rt: &impl Abort, item: Option<&Body>, x: u32, mass: u32) {
    let body = item.expect(rt, "a body");
    assert_eq!(rt; (body.x, body.mass), (x, mass));
}

#[test]
fn a_list_of_bodies(rt: HostRuntime) {
    let mut bodies = BodyList::new(rt.alloc());
    for (x, mass) in [(5, 2), (6, 3)] {
        let body = body_of(x, 0, 0, mass, 1).expect(&rt, "a place");
        bodies.push(body).expect(&rt, "memory");
    }
    body_is(&rt, bodies.get(1), 6, 3);
    assert!(rt; bodies.get(2).is_none());
    body_is(&rt, bodies.pop().as_ref(), 6, 3);
    assert!(rt; bodies.len() == 1);
}

/// The first number that is too large for a coordinate.
const END: u32 = 536_870_912;

/// Places and masses (x, y, z, mass), with the key of such a body if there may be one.
const ROWS: [([u32; 4], Option<u64>); 7] = [
    ([0, 0, 0, 1], Some(9_223_372_036_854_775_808)),
    ([END - 1, END - 1, END - 1, u32::MAX], Some(u64::MAX)),
    ([1024, 0, 0, 3], Some(9_223_372_036_854_776_064)),
    ([END, 0, 0, 1], None),
    ([0, END, 0, 1], None),
    ([0, 0, END, 1], None),
    ([0, 0, 0, 0], None),
];

fn key_of(body: Body) -> u64 {
    body.key
}

#[test]
fn bodies_within_their_limits(rt: HostRuntime) {
    for &(row, key) in &ROWS {
        let body = body_of(row[0], row[1], row[2], row[3], 7);
        assert!(rt; body.map(key_of) == key);
    }
}
