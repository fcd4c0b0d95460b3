use crate::ending::end_client;
use crate::solo_queue::SoloQueue;
use gate_core::{LocalClient, Submit, World};
use gate_model::Numbered;

impl SoloQueue for LocalClient {
    type Ended = World;

    ghost use Rattle.gate_replay.specs.SoloWorld.{IsAfter};
    ghost use Rattle.gate_replay.specs.laws.SoloWorlds.{after_submit, after_look, after_close};
    ghost use Rattle.gate_replay.specs.laws.Allowing.{legal_allowed};

    ghost after = { IsAfter };

    ghost limits = { λ client. client.world.limits };

    fn turn_to(self, number: u32) -> LocalClient {
        let world = self.into_world();
        LocalClient::new(world, number).ok().unwrap()
    }

    fn take(self) -> (LocalClient, Option<Numbered>) {
        let number = self.number();
        let mut world = self.into_world();
        let item = world.take();
        (LocalClient::new(world, number).ok().unwrap(), item)
    }

    fn end(self) -> World {
        let mut world = self.into_world();
        end_client(&mut world, 1);
        end_client(&mut world, 2);
        world
    }

    ghost after_submit = { after_submit };

    ghost after_look = { λ old new result run looks _ h. after_look old new result run looks h };

    ghost after_close = { after_close };

    ghost same_limits = { λ _ _ keeps. keeps.limits };

    ghost allowed = { λ client run h. legal_allowed client.world.limits run h.stands.legal };
}
