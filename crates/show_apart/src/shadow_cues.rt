// Scope 13, the cues of the shadow switch, written plainly and apart from the crossbar's: four places, each with a name
// and a whole shadow switch, and whatever is asked of them is searched for place by place.
ghost use Rattle.std.specs.Prelude.{◌<◌, IfSome};

use crate::shadow::{Refusal, Shadow};

const PLACES: usize = 4;

// A cue: its name, and the switch that it holds.
#[derive(Clone, Copy)]
struct Cue {
    name: &'static str,
    switch: Shadow,
}

// The places of the cues, and what stands there.
#[derive(Drop)]
pub(crate) struct Cues {
    places: [Option<Cue>; PLACES],
}

impl Cues {
    pub(crate) fn none() -> Cues {
        Cues {
            places: [None; PLACES],
        }
    }

    // Sets a cue where one of its name is, else at the lowest free place.
    pub(crate) fn set(&mut self, name: &'static str, switch: &Shadow) -> Result<(), Refusal> {
        check_name(name)?;
        let place = self.place_for(name).ok_or(Refusal::CuesFull)?;
        // Written through a slice: an array's element that holds a ghost fact is not proved yet.
        let places = &mut self.places[..];
        places[place] = Some(Cue {
            name,
            switch: *switch,
        });
        Ok(())
    }

    // Drops a cue.
    pub(crate) fn drop(&mut self, name: &str) -> Result<(), Refusal> {
        check_name(name)?;
        let place = self.place_of(name).ok_or(Refusal::NoSuchCue)?;
        let places = &mut self.places[..];
        places[place] = None;
        Ok(())
    }

    // Returns to a cue, which stays.
    pub(crate) fn return_to(&self, name: &str, switch: &mut Shadow) -> Result<(), Refusal> {
        check_name(name)?;
        let cue = self.places.iter().flatten().find(|cue| cue.name == name);
        *switch = cue.ok_or(Refusal::NoSuchCue)?.switch;
        Ok(())
    }

    // The name at a place, or no letters.
    pub(crate) fn name_at(&self, place: usize) -> &'static str {
        match self.places.get(place) {
            Some(Some(cue)) => cue.name,
            _ => "",
        }
    }

    // Where a cue goes: where one of its name is, else the lowest free place.
    fn place_for(&self, name: &str) -> Option<usize>
        ensures { IfSome result (λ place. place < 4) }
    {
        let free = self.places.iter().position(|place| place.is_none());
        self.place_of(name).or(free)
    }

    // The place with this name.
    fn place_of(&self, name: &str) -> Option<usize>
        ensures { IfSome result (λ place. place < 4) }
    {
        self.places
            .iter()
            .position(|place| place.is_some_and(|cue| cue.name == name))
    }
}

// A name has 1 to 8 letters, each lower-case.
fn check_name(name: &str) -> Result<(), Refusal> {
    if (1..=8).contains(&name.len()) && name.bytes().all(|byte| byte.is_ascii_lowercase()) {
        Ok(())
    } else {
        Err(Refusal::BadName)
    }
}
