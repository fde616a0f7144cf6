use crate::{DirectTransport, PipeTransport};
use ms_base::Tuple;
use plain_transport::{Accept, PlainFault};

const ONE: Tuple = Tuple {
    ip: [127, 0, 0, 1],
    port: 40000,
};

const OTHER: Tuple = Tuple {
    ip: [127, 0, 0, 2],
    port: 40000,
};

#[test]
fn a_pipe_is_told_its_tuple_once(rt: HostRuntime) {
    let mut transport = PipeTransport::default();
    assert_eq!(rt;
        (transport.accepts(ONE), transport.remote()),
        (Accept::No, None)
    );
    assert_eq!(rt; transport.connect(ONE), Ok(()));
    assert_eq!(rt; transport.connect(ONE), Err(PlainFault::AlreadyConnected));
    let answers = (transport.accepts(OTHER), transport.accepts(ONE));
    assert_eq!(rt; answers, (Accept::No, Accept::Yes));
    assert_eq!(rt; transport.remote(), Some(ONE));
}

#[test]
fn direct_transports_are_one(rt: HostRuntime) {
    assert_eq!(rt; DirectTransport, DirectTransport);
}
