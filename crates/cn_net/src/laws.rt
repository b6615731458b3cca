//! Laws of the definitions. Each function does nothing; its contract is the law.

ghost use Rattle.std.specs.Prelude.{◌≡◌, ◌↔◌, ◌<◌, ℕ, Bool, true, false, length, List, Option, None, Some, MatchOption};
ghost use Rattle.std.specs.List.{All};
ghost use Rattle.cn_base.specs.Cidr.{Cidr};
ghost use Rattle.cn_base.specs.declared.ids.DeviceId.{DeviceId};
ghost use Rattle.cn_base.specs.declared.route.Choice.{Choice};
ghost use Rattle.cn_base.specs.declared.route.Route.{Route};
ghost use Rattle.cn_net.specs.Boundary.{AgreeInside, IsBounded, IsStableInside, NoForeignOffer, OutsideAsRecorded, RoutesCross};
ghost use Rattle.cn_decide.specs.Decide.{IsPick};
ghost use Rattle.cn_decide.specs.declared.Candidate.{Candidate};
ghost use Rattle.cn_net.specs.Candidates.{HasItsSender, IsBest, IsBestAmong, IsListed, best_of, listed_at};
ghost use Rattle.cn_net.specs.Certificate.{IsCertified};
ghost use Rattle.cn_net.specs.Drafted.{StandsForOne, draft_of};
ghost use Rattle.cn_base.specs.Paths.{holds_asn};
ghost use Rattle.cn_net.specs.Exchange.{accept, offer};
ghost use Rattle.cn_net.specs.Faults.{fault_of};
ghost use Rattle.cn_net.specs.Offered.{IsOffered};
ghost use Rattle.cn_net.specs.Islands.{IsIslandLabelling, IsIslands};
ghost use Rattle.cn_net.specs.Network.{Network, IsDevice, asn_of};
ghost use Rattle.cn_net.specs.OneState.{HasOneStableState, HasOneStableStateFor, RoundsAgree};
ghost use Rattle.cn_net.specs.Records.{AreSound, SaysItsOwn};
ghost use Rattle.cn_net.specs.Restriction.{restricted};
ghost use Rattle.cn_net.specs.Stable.{Assignment};
ghost use Rattle.cn_net.specs.Valid.{IsValid};
ghost use Rattle.cn_net.specs.declared.draft.Draft.{Draft};

/// A draft stands for at most one valid network.
pub fn draft_is_of_one_network()
    ensures { (x y : Network) → IsValid x → IsValid y → draft_of x ≡ draft_of y → x ≡ y }
{}

/// A draft has no fault exactly where a valid network reads as it.
pub fn faultless_drafts()
    ensures { (draft : Draft) → (fault_of draft ≡ None) ↔ StandsForOne draft }
{}

/// A network's islands have one labelling: two that meet the definition agree on all devices.
pub fn islands_are_one()
    ensures { (net : Network) (outside : DeviceId → Bool) (x y : DeviceId → Option DeviceId)
        → IsIslands net outside x → IsIslands net outside y
        → (d : DeviceId) → IsDevice net d → x d ≡ y d }
{}

/// Where two labellings agree on all devices and one of them has the certificate, so has the other.
pub fn certified_alike()
    ensures { (net : Network) (outside : DeviceId → Bool) (x y : DeviceId → Option DeviceId)
        → ((d : DeviceId) → IsDevice net d → x d ≡ y d)
        → IsCertified net outside x → IsCertified net outside y }
{}

// ---- the four laws of what is offered and accepted, on which alone the proofs above rest

/// What is offered of a route is one route: a function of the network, the two devices and the
/// route.
pub fn offers_are_one()
    ensures { (net : Network) (a b : DeviceId) (r x y : Route)
        → offer net a b r ≡ Some x → offer net a b r ≡ Some y → x ≡ y }
{}

/// What is offered has a longer path than the route.
pub fn offers_are_longer()
    ensures { (net : Network) (a b : DeviceId) (r x : Route)
        → offer net a b r ≡ Some x → length r.path < length x.path }
{}

/// Its path begins with the AS number of the device that offers it and ends with the path of the
/// route (RFC 4271, 5.1.2), and prefix and ORIGIN are those of the route.
pub fn offers_begin_with_the_sender()
    ensures { (net : Network) (a b : DeviceId) (r x : Route)
        → offer net a b r ≡ Some x → IsOffered net a b r x }
{}

/// The path of a route that is accepted doesn't hold the AS number of the device that accepts it
/// (RFC 4271, 9.1.2).
pub fn accepted_paths_are_new()
    ensures { (net : Network) (a b : DeviceId) (r : Route)
        → accept net b a r ≡ true → holds_asn r.path (asn_of net b) ≡ false }
{}

// ---- decisions, stable states and boundaries

/// What `best_of` computes is the best of a device's candidates (RFC 4271, 9.1.2.2).
pub fn best_is_best()
    ensures { (net : Network) (came : DeviceId → Option Route) (b : DeviceId) (p : Cidr)
        → IsBest net came b p (best_of net came b p) }
{}

/// In a valid network nothing else is: the best of a device's candidates is one choice, or none.
pub fn best_is_one()
    ensures { (net : Network) (came : DeviceId → Option Route) (b : DeviceId) (p : Cidr)
        (o : Option Choice)
        → IsValid net → IsBest net came b p o → o ≡ best_of net came b p }
{}

/// Where each learnt candidate of a list bears the BGP Identifier of the device that it came from,
/// the pick of the list is the best among them, and there is none exactly where the list is empty.
/// The second premise is what `pick` of `cn_decide` ensures.
pub fn pick_is_best()
    ensures { (net : Network) (candidates : List Candidate) (place : Option ℕ)
        → All (HasItsSender net) candidates
        → MatchOption place (length candidates ≡ 0) (IsPick candidates)
        → IsBestAmong net (IsListed candidates) (listed_at candidates place) }
{}

/// A valid network has exactly one stable state.
pub fn one_stable_state()
    ensures { (net : Network) → IsValid net → HasOneStableState net }
{}

/// The same for some of its devices and one prefix: where the choices of the others are given,
/// exactly one assignment to these devices is stable for the prefix.
pub fn one_stable_state_for()
    ensures { (net : Network) (s : DeviceId → Bool) (p : Cidr) (given : Assignment)
        → IsValid net → HasOneStableStateFor net s p given }
{}

/// Any two assignments to some of its devices, where the others hold the same, agree on all routes
/// shorter than k when each of these devices has decided k times.
pub fn rounds_agree()
    ensures { (net : Network) (s : DeviceId → Bool) (p : Cidr) (x y : ℕ → Assignment)
        → IsValid net → RoundsAgree net s p x y }
{}

/// A valid network with some of its devices alone is valid, so it has one stable state too.
pub fn restricted_is_valid()
    ensures { (net : Network) (s : DeviceId → Bool) → IsValid net → IsValid (restricted net s) }
{}

/// Where no device of a set originates a prefix, each route to it that a device of the set holds in
/// a stable state came into the set from a device that isn't in it, and the AS number of that
/// device stands in its path.
pub fn routes_cross()
    ensures { (net : Network) (s : DeviceId → Bool) (held : Assignment) (p : Cidr)
        → RoutesCross net s held p }
{}

/// The labels of the islands fit.
pub fn islands_are_a_labelling()
    ensures { (net : Network) (outside : DeviceId → Bool) (label : DeviceId → Option DeviceId)
        → IsIslands net outside label → IsIslandLabelling net outside label }
{}

/// Behind a certified boundary, where the records are sound, each outside device holds in the
/// stable state of the whole network what is recorded of it for the prefixes of its island. The
/// labels are any that fit.
pub fn outside_as_recorded()
    ensures { (net : Network) (outside : DeviceId → Bool) (label : DeviceId → Option DeviceId)
        (said state : Assignment)
        → IsBounded net outside label state → AreSound net outside label said
        → OutsideAsRecorded net label said state }
{}

/// Behind a certified boundary no emulated device accepts from an outside device a route to a
/// prefix that isn't of that device's island: its own AS number stands in the path (RFC 4271,
/// 9.1.2).
pub fn no_foreign_offer()
    ensures { (net : Network) (outside : DeviceId → Bool) (label : DeviceId → Option DeviceId)
        (state : Assignment)
        → IsBounded net outside label state → NoForeignOffer net outside label state }
{}

/// So emulated devices that hold their best, where the outside devices say what is recorded of them
/// and never react, hold what they hold in the one stable state of the whole network.
pub fn quiet_is_stable()
    ensures { (net : Network) (outside : DeviceId → Bool) (label : DeviceId → Option DeviceId)
        (said held state : Assignment)
        → IsBounded net outside label state → AreSound net outside label said
        → SaysItsOwn net label said → IsStableInside net outside said held
        → AgreeInside net outside held state }
{}
