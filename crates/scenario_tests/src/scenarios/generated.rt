use crate::scenarios::event_at;
use crate::values::{alike_at, same};
use scenario_file::{generate, read};
use std::test::Fail;

// The scenario of seed 94 as another program wrote it down: 50 steps, with a turn of each kind. The last handover over
// X2 but one is without the answer to its path switch, and the last would be.
const SEED_94: &str = "
phone={caps='a020'}
station=[
    {id=0,cells=[[10,100]]},{id=1,cells=[[11,101]]},{id=2,cells=[[12,102]]},{id=3,cells=[[13,103]]},
]
step=[
    {do='auth',ksi=0,kasme='000102030405060708090a0b0c0d0e0f101112131415161718191a1b1c1d1e1f'},
    {do='smc'},
    {do='deliver',record=-1},{do='deliver',record=-1},
    {do='connect',cell=[10,100]},
    {do='deliver',record=-1},{do='deliver',record=-1},{do='deliver',record=-1},
    {do='s1',station=0,cell=[11,101]},
    {do='deliver',record=-1},{do='deliver',record=-1},{do='deliver',record=-1},{do='deliver',record=-1},
    {do='command',station=0},
    {do='deliver',record=-1},{do='deliver',record=-1},{do='deliver',record=-1},
    {do='x2',station=1,cell=[10,100]},
    {do='deliver',record=-1},{do='deliver',record=-1},
    {do='command',station=1},
    {do='deliver',record=-1},{do='deliver',record=-1},{do='deliver',record=-1},
    {do='user',from='station',station=0,bearer='drb1',text='e35b7bdd31dfee74'},
    {do='deliver',record=-1},
    {do='x2',station=0,cell=[12,102]},
    {do='deliver',record=-1},{do='deliver',record=-1},
    {do='command',station=0},
    {do='deliver',record=-1},{do='deliver',record=-1},{do='deliver',record=-1},{do='deliver',record=-1},{do='deliver',record=-1},
    {do='user',from='phone',bearer='drb1',text='1f24243059a18768'},
    {do='deliver',record=-1},
    {do='x2',station=2,cell=[11,101]},
    {do='deliver',record=-1},{do='deliver',record=-1},
    {do='command',station=2},
    {do='deliver',record=-1},{do='deliver',record=-1},{do='deliver',record=-1},{do='deliver',record=-1},{do='deliver',record=-1},
    {do='intra',station=1,cell=[11,101]},
    {do='command',station=1},
    {do='deliver',record=-1},{do='deliver',record=-1},
]
";

#[test]
fn a_seed_gives_the_steps_of_its_draws(rt: HostRuntime) -> Result<(), Fail> {
    let whole = read(rt.alloc(), SEED_94.as_bytes())?;
    for n in [1, 7, 8, 9, 17, 25, 49, 50] {
        let scenario = generate(rt.alloc(), n, 94)?;
        assert!(rt; scenario.setup == whole.setup);
        same(&rt, scenario.events.len(), n as usize);
        for number in 0..n as usize {
            let event = event_at(&scenario.events, number);
            alike_at(&rt, (n, number), event, event_at(&whole.events, number));
        }
    }
    Ok(())
}
