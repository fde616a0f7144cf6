use crate::{Accept, PlainFault, PlainTransport};
use ms_base::Tuple;

const ONE: Tuple = Tuple {
    ip: [192, 0, 2, 1],
    port: 5004,
};

// Another port of the same address.
const OTHER: Tuple = Tuple {
    ip: [192, 0, 2, 1],
    port: 5006,
};

#[test]
fn a_tuple_is_told_once(rt: HostRuntime) {
    let mut transport = PlainTransport::new(false);
    assert_eq!(rt; transport.accepts(ONE), Accept::No);
    assert_eq!(rt; transport.connect(ONE), Ok(()));
    assert_eq!(rt; transport.connect(OTHER), Err(PlainFault::AlreadyConnected));
    let answers = (transport.accepts(OTHER), transport.accepts(ONE));
    assert_eq!(rt; answers, (Accept::No, Accept::Yes));
    assert_eq!(rt; transport.remote(), Some(ONE));
}

#[test]
fn a_tuple_is_learnt_once(rt: HostRuntime) {
    let mut transport = PlainTransport::new(true);
    assert_eq!(rt; transport.connect(OTHER), Err(PlainFault::NotWithComedia));
    assert_eq!(rt; transport.remote(), None);
    let answers = (transport.accepts(ONE), transport.accepts(OTHER));
    assert_eq!(rt; answers, (Accept::Learnt, Accept::No));
    assert_eq!(rt; transport.accepts(ONE), Accept::Yes);
    assert_eq!(rt; transport.connect(OTHER), Err(PlainFault::NotWithComedia));
    assert_eq!(rt; transport.remote(), Some(ONE));
}
