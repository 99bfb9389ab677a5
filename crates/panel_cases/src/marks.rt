// Marks of lines, and what is counted of them.
use lines::Line;
use requests::{Requests, Tally};

#[test]
fn marks_and_tallies(rt: HostRuntime) {
    let mut requests = Requests::new();
    requests.signal(Line::F1);
    requests.signal(Line::F1);
    assert_eq!(rt; requests.test(Line::F1), true);
    assert_eq!(rt; requests.test(Line::F1), false);
    requests.signal_all(requests.marks());
    requests.signal(Line::F1);
    requests.enter(Line::F1);
    requests.signal(Line::F1);
    requests.drop_all();
    assert_eq!(rt; requests.marks().is_empty(), true);
    let counted = Tally {
        signals: 4,
        merged: 1,
        entered: 1,
        tested: 1,
        dropped: 1,
    };
    assert_eq!(rt; requests.tally(Line::F1), counted);
}
