// Connections are served side by side: one that waits does not keep the next one waiting.
use crate::no_client::NoClient;
use crate::running::run_over;
use crate::waiting_gate::Signs;
use crate::waiting_world::WaitingWorld;
use jmap_commands::{Status, Worlds};
use std::test::Fail;

#[test]
fn answers_the_second_connection_while_the_first_one_waits(rt: HostRuntime) -> Result<(), Fail> {
    let alloc = rt.alloc();
    let signs = Signs::new();
    let mut worlds = Worlds {
        server: WaitingWorld::new(alloc, &signs),
        client: NoClient,
    };
    let ran = run_over(&rt, alloc, "serve c d 8600 2", &mut worlds)?;
    assert_eq!(rt; signs.late(), 0);
    assert_eq!(rt; worlds.server.answered(), 2);
    assert!(rt; ran.status == Status(0));
    assert!(rt; ran.out.as_slice() == b"served 2\n".as_slice());
    Ok(())
}
