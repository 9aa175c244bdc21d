// The objects of a get, put under the identifiers of their records (RFC 8620, section 5.1).
ghost use Rattle.std.specs.Prelude.{◌≡◌, ◌≤◌, ◌+◌, [], IfOk, drop, length, map, vec_capacity};
ghost use Rattle.reply_readers.specs.Objects.{object_of, objects_of};
ghost use Rattle.client_cache.specs.Plans.{with_get_plan};
ghost use Rattle.client_cache.specs.Progress.{after_get};
ghost use Rattle.client_cache.specs.Records.{by_id};
ghost use Rattle.client_cache.specs.RoundViews.{round_of};
ghost use Rattle.client_cache.specs.declared.limits.TheConstants.{MAX_IDS};

use crate::kinds::Records;
use crate::limits::MAX_IDS;
use crate::numbers::join;
use crate::rounds::Round;
use jm_base::{Id, Kind, NoMemory, Numbers, Sequence, id_text};
use jm_json::{Member, Members};
use reply_readers::{ReadObject, ReadObjects};
use std::alloc::Global;
use std::collections::VecDeque;
use std::mem;

/// What the objects of a get make of a round: what is left to ask for, what it drops, the objects
/// under their identifiers, and room for them and the records that it has.
#[derive(Drop)]
pub(crate) struct GetPlan {
    pub asked: Numbers,
    pub dropped: Numbers,
    pub objects: Records,
    pub room: Vec<Member>,
}

fn collect_objects(
    alloc: Global,
    kind: Kind,
    objects: Sequence<ReadObject>,
) -> Result<Records, NoMemory>
    ensures { IfOk result (λ rs. rs ≡ by_id kind (map object_of objects)) }
{
    let mut members = Members::new(alloc);
    let mut rest = VecDeque::from_vec(objects.into_vec());
    while let Some(read) = rest.pop_front() {
        let ReadObject { number, object } = read;
        members.put(id_text(alloc, &Id { kind, number })?, object)?;
    }
    Ok(Records::of_members(members))
}

fn copy_left(alloc: Global, asked: &[u64]) -> Result<Numbers, NoMemory>
    ensures { IfOk result (λ ns. ns ≡ drop MAX_IDS asked.now) }
{
    if asked.len() <= MAX_IDS {
        return Ok(Numbers::new(alloc));
    }
    let (_, left) = asked.split_at(MAX_IDS);
    Ok(Numbers::from_vec(Vec::from_slice(alloc, left)?))
}

/// Returns what the objects of a get make of a round.
pub(crate) fn plan_get(
    alloc: Global,
    round: &Round,
    kind: Kind,
    objects: ReadObjects,
) -> Result<GetPlan, NoMemory>
    ensures plan { IfOk result (λ plan. with_get_plan plan (round_of round.now)
        ≡ after_get kind (objects_of objects) (round_of round.now)) }
    ensures empty { IfOk result (λ plan. plan.room.items ≡ []) }
    ensures room { IfOk result (λ plan. length (round_of round.now).got + length plan.objects
        ≤ vec_capacity plan.room) }
{
    let ReadObjects {
        objects,
        unknown,
        ..
    } = objects;
    let objects = collect_objects(alloc, kind, objects)?;
    let asked = copy_left(alloc, round.asked.as_slice())?;
    let dropped = join(alloc, round.dropped.as_slice(), unknown.as_slice())?;
    let room = Records::make_room(alloc, &round.got, &objects)?;
    Ok(GetPlan {
        asked,
        dropped: Numbers::from_vec(dropped),
        objects,
        room,
    })
}

/// Puts the objects of a get into a round.
pub(crate) fn apply_get(alloc: Global, round: &mut Round, plan: GetPlan)
    requires empty { plan.room.items ≡ [] }
    requires room { length (round_of round.old).got + length plan.objects ≤ vec_capacity plan.room }
    ensures { round_of round.new ≡ with_get_plan plan (round_of round.old) }
{
    let GetPlan {
        asked,
        dropped,
        objects,
        room,
    } = plan;
    let got = mem::replace(&mut round.got, Records::new(alloc));
    round.got = Records::merge(room, got, objects);
    round.asked = asked;
    round.dropped = dropped;
}
