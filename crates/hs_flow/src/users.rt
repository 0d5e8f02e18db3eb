//! For each parameter, the points with that parameter at their head.

ghost use Rattle.std.specs.Prelude.{◌≡◌, ◌++◌, ◌∷◌, ◌&&◌, [], ℕ};
ghost use Rattle.std.specs.Prelude.{length, sum, OnOk, IfOk, if◌then◌else◌, nat_eq};
ghost use Rattle.hs_scheme.specs.sorting.Parameters.{IsParameter};
ghost use Rattle.hs_flow.specs.Users.{users_of, IsUserMap};

use crate::short_lists::ShortLists;
use hs_scheme::{Head, OutOfMemory, Parameters, Points};
use std::alloc::Global;

/// The users of each parameter, in the list of its number.
#[derive(Drop)]
pub(crate) struct Users {
    params: Parameters,
    lists: ShortLists,
}

impl Users {
    /// Adds a user of this parameter, which the rules have.
    fn add(&mut self, rule: u32, param: u32, point: u32) -> Result<(), OutOfMemory>
        requires param { IsParameter self.old.params rule param }
        requires lists { length self.old.lists ≡ sum self.old.params }
        ensures added { OnOk result ((r x : ℕ) →
            users_of self.new r x ≡
            (if nat_eq rule r && nat_eq param x
            then users_of self.old r x ++ point ∷ [] else users_of self.old r x)) }
        ensures params { self.new.params ≡ self.old.params }
        ensures lists { OnOk result (length self.new.lists ≡ length self.old.lists) }
    {
        if let Some(number) = self.params.number(rule, param) {
            self.lists.push(number as usize, point)?;
        }
        Ok(())
    }

    /// The users of all parameters, in time and memory in proportion to the points and the
    /// parameters.
    pub(crate) fn of(alloc: Global, points: &Points) -> Result<Users, OutOfMemory>
        ensures { IfOk result (IsUserMap points.now.points) }
    {
        let params = points.params().copy(alloc)?;
        let lists = ShortLists::empty(alloc, params.count() as usize)?;
        let mut users = Users { params, lists };
        for point in 0..points.count() {
            if let Head::Var(param) = points.head_of(point) {
                users.add(points.rule_of(point), param, point)?;
            }
        }
        Ok(users)
    }

    /// The users of this parameter.
    pub(crate) fn list(&self, rule: u32, param: u32) -> &[u32]
        requires { length self.now.lists ≡ sum self.now.params }
        ensures { result.now ≡ users_of self.now rule param }
    {
        let Some(number) = self.params.number(rule, param) else {
            return &[];
        };
        self.lists.list(number as usize)
    }
}
