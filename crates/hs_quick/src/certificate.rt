//! What was found, as a certificate in which each type, set and environment is told once.
//!
//! The numbers of the search ascend: a type comes behind its set and its result, and a set behind its types. So
//! they are told in the order of their numbers.

use crate::ended::{numbered, put};
use crate::envs::EMPTY;
use crate::listing::{Line, Listed, Listing, Place};
use crate::look::{at_point, params_of};
use crate::search::Search;
use crate::types::{Shape, Types};
use hs_numbered::NumberedCertificate;
use hs_scheme::{OutOfMemory, Problem};
use hs_types::{EnvId, SetId, TyId};
use std::alloc::Global;

/// So many types are told at most, those in other ones counted with them.
const MOST_TYPES: u64 = 6_000_000;

/// A type of the search in a certificate, and how many types it is made of, with itself.
#[derive(Clone, Copy, Default)]
struct ToldType {
    id: TyId,
    size: u64,
}

/// An environment of the search in a certificate, and how many types its types are made of.
#[derive(Clone, Copy, Default)]
struct ToldEnv {
    id: EnvId,
    size: u64,
}

/// What the types, the sets and the environments of a search are in a certificate, as far as they were told.
#[derive(Drop)]
struct Numbers {
    types: Vec<ToldType>,
    sets: Vec<SetId>,
    envs: Vec<ToldEnv>,
    /// The environment without types, for each number of parameters.
    empty: Vec<EnvId>,
}

/// A certificate that is being told.
#[derive(Drop)]
pub(crate) struct Telling {
    alloc: Global,
    pub(crate) certificate: NumberedCertificate,
    numbers: Numbers,
    /// The set without types.
    none: SetId,
    /// So many types may still be told.
    pub(crate) left: u64,
    /// Whether memory was refused.
    pub(crate) refused: bool,
}

/// The item at the place, the first number where there is none.
fn item_at<T: Copy + Default>(list: &[T], place: u32) -> T {
    match list.get(place as usize) {
        Some(item) => *item,
        None => T::default(),
    }
}

impl Telling {
    /// Nothing is told yet. Takes no memory.
    pub(crate) fn new(alloc: Global) -> Telling {
        let numbers = Numbers {
            types: Vec::new(alloc),
            sets: Vec::new(alloc),
            envs: Vec::new(alloc),
            empty: Vec::new(alloc),
        };
        Telling {
            alloc,
            certificate: NumberedCertificate::new(alloc),
            numbers,
            none: SetId::default(),
            left: MOST_TYPES,
            refused: false,
        }
    }

    /// The number that the certificate gave. Where it gave none, nothing is proposed.
    fn given<T: Default>(&mut self, told: Result<Option<T>, OutOfMemory>) -> T {
        match told {
            Ok(Some(number)) => return number,
            Ok(None) => self.left = 0,
            Err(OutOfMemory) => self.refused = true,
        }
        T::default()
    }

    /// Notes whether what stands in a line was told before.
    fn added(&mut self, told: Result<bool, OutOfMemory>) {
        match told {
            Ok(true) => (),
            Ok(false) => self.left = 0,
            Err(OutOfMemory) => self.refused = true,
        }
    }

    /// The type of the search of this number.
    fn ty(&self, ty: u32) -> ToldType {
        item_at(self.numbers.types.as_slice(), ty)
    }

    /// The set of these types of the search.
    fn set(&mut self, types: &[u32]) -> SetId {
        let mut members = Vec::new(self.alloc);
        for ty in types {
            let member = self.ty(*ty).id;
            put(&mut members, member, &mut self.refused);
        }
        let told = self.certificate.set(members.as_slice());
        self.given(told)
    }

    /// Tells the sets up to this one, and answers it.
    fn set_up_to(&mut self, types: &Types, last: u32) -> SetId {
        for set in numbered(self.numbers.sets.len())..last.saturating_add(1) {
            let own = self.set(types.members(set));
            put(&mut self.numbers.sets, own, &mut self.refused);
        }
        item_at(self.numbers.sets.as_slice(), last)
    }

    /// The state as a type.
    fn state(&mut self, state: u32) -> ToldType {
        let told = match self.certificate.base(state) {
            Ok(ty) => Ok(Some(ty)),
            Err(OutOfMemory) => Err(OutOfMemory),
        };
        ToldType {
            id: self.given(told),
            size: 1,
        }
    }

    /// The type with this set and this result of the search.
    fn arrow(&mut self, types: &Types, set: u32, rest: u32) -> ToldType {
        let own = self.set_up_to(types, set);
        let rest = self.ty(rest);
        let told = self.certificate.arrow(own, rest.id);
        let mut size = rest.size.saturating_add(1);
        for member in types.members(set) {
            size = size.saturating_add(self.ty(*member).size);
        }
        ToldType {
            id: self.given(told),
            size,
        }
    }

    /// Tells the types.
    fn tell_types(&mut self, types: &Types) {
        for ty in 0..numbered(types.len()) {
            let told = match types.shape(ty) {
                Shape::State(state) => self.state(state),
                Shape::Arrow(set, rest) => self.arrow(types, set, rest),
            };
            put(&mut self.numbers.types, told, &mut self.refused);
        }
    }

    /// Tells the environments without types, of at most so many parameters.
    fn tell_empty(&mut self, most: u32) {
        self.none = self.set(&[]);
        let mut sets = Vec::new(self.alloc);
        for _ in 0..most.saturating_add(1) {
            let told = self.certificate.env(sets.as_slice());
            let own = self.given(told);
            put(&mut self.numbers.empty, own, &mut self.refused);
            put(&mut sets, self.none, &mut self.refused);
        }
    }

    /// The set of the types at the places from the `next` one on, as far as these are of the parameter from
    /// which on there are so many.
    fn set_at(&mut self, places: &[Place], next: &mut usize, params: u32) -> SetId {
        let mut types = Vec::new(self.alloc);
        for number in *next..places.len() {
            match places.get(number) {
                Some(place) if place.params == params => {
                    put(&mut types, place.ty, &mut self.refused);
                    *next = number.saturating_add(1);
                }
                _ => break,
            }
        }
        if types.is_empty() {
            return self.none;
        }
        self.set(types.as_slice())
    }

    /// The sets of so many parameters with these types.
    fn sets(&mut self, places: &[Place], params: u32) -> Vec<SetId> {
        let mut sets = Vec::new(self.alloc);
        let mut next = 0;
        for param in 0..params {
            let set = self.set_at(places, &mut next, params - param);
            put(&mut sets, set, &mut self.refused);
        }
        sets
    }

    /// The environment of so many parameters with these types.
    fn env(&mut self, places: &[Place], params: u32) -> ToldEnv {
        let sets = self.sets(places, params);
        let told = self.certificate.env(sets.as_slice());
        let mut size: u64 = 0;
        for place in places {
            size = size.saturating_add(self.ty(place.ty).size);
        }
        ToldEnv {
            id: self.given(told),
            size,
        }
    }

    /// Tells the environments that are listed.
    fn tell_envs(&mut self, search: &Search, listed: &[Listed]) {
        for _ in 0..search.envs.len() {
            put(
                &mut self.numbers.envs,
                ToldEnv::default(),
                &mut self.refused,
            );
        }
        for env in listed {
            let params = params_of(search.problem, search.envs.rule(env.env));
            let told = self.env(env.places.as_slice(), params);
            if let Some(own) = self.numbers.envs.get_mut(env.env as usize) {
                *own = told;
            }
        }
    }

    /// The environment of a rule with so many parameters: the one without types is any rule's.
    fn env_at(&self, env: u32, params: u32) -> ToldEnv {
        if env != EMPTY {
            return item_at(self.numbers.envs.as_slice(), env);
        }
        ToldEnv {
            id: item_at(self.numbers.empty.as_slice(), params),
            size: 0,
        }
    }

    /// Counts so many types.
    fn count(&mut self, types: u64) {
        self.left = self.left.saturating_sub(types);
    }

    /// Adds the entries.
    fn add_entries(&mut self, problem: &Problem, entries: &[Line]) {
        for line in entries {
            let rule = at_point(problem, line.at).rule;
            let env = self.env_at(line.env, params_of(problem, rule));
            let ty = self.ty(line.ty);
            self.count(env.size.saturating_add(ty.size));
            let told = self.certificate.add_entry(line.at, env.id, ty.id);
            self.added(told);
        }
    }

    /// Adds the void environments.
    fn add_void(&mut self, problem: &Problem, void: &[Line]) {
        for line in void {
            let env = self.env_at(line.env, params_of(problem, line.at));
            self.count(env.size);
            let told = self.certificate.add_void(line.at, env.id);
            self.added(told);
        }
    }

    /// Tells what the search proposes.
    pub(crate) fn tell(&mut self, search: &Search) {
        let listing = Listing::of(self.alloc, search);
        self.tell_types(&search.envs.types);
        self.tell_empty(most_params(search.problem));
        self.tell_envs(search, listing.envs.as_slice());
        self.add_entries(search.problem, listing.entries.as_slice());
        self.add_void(search.problem, listing.void.as_slice());
        if listing.is_refused() {
            self.refused = true;
        }
    }
}

/// The greatest number of parameters that a rule has.
fn most_params(problem: &Problem) -> u32 {
    let mut most = 0;
    for rule in 0..numbered(problem.points.params().rules()) {
        most = params_of(problem, rule).max(most);
    }
    most
}
