use gate_model::Text;
use operator_ports::LiveGateway;
use operator_showing::run_status;
use std::io::Write;
use std::net::TcpListener;
use std::{io, thread};

static PAGE: &str = "status 800\nobject;web1;;UP;700;fresh;-;0;up\n\
    object;db1;;DOWN;700;fresh;-;0;down\n";

// Serves the page to the first who connects.
fn serve(listener: &TcpListener) -> io::Result<()> {
    let (mut stream, _) = listener.accept()?;
    stream.write_all(PAGE.as_bytes())
}

#[test]
fn the_objects_that_are_asked_for_are_shown(rt: HostRuntime) {
    let alloc = rt.alloc();
    let listener = TcpListener::bind(&rt, "127.0.0.1:0").expect(&rt, "a port");
    let address = listener.local_addr().expect(&rt, "its address");
    let mut gateway = LiveGateway::new(&rt, alloc, address, address, 10);
    let host = Some(Text::copied(alloc, b"db").expect(&rt, "memory"));
    let mut output = Vec::new(alloc);
    let (shown, served) = thread::join(
        &rt,
        || run_status(alloc, false, "", (&None, &host), &mut gateway, &mut output),
        || serve(&listener),
    );
    assert!(rt; served.is_ok());
    assert_eq!(rt; shown.ok(), Some(0));
    assert!(rt; output.as_slice() == b"object;db1;;DOWN;700;fresh;-;0;down\n".as_slice());
}
