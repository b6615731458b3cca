//! Laws on what a change of a network leaves as it was. Each function does nothing; its contract is
//! the law.

ghost use Rattle.std.specs.Prelude.{◌≡◌, ◌≢◌, Bool, Some, false, map};
ghost use Rattle.cn_base.specs.declared.ids.DeviceId.{DeviceId};
ghost use Rattle.cn_net.specs.Alike.{DifferInUp};
ghost use Rattle.cn_net.specs.Changed.{reloaded, same_two, with_body, with_link};
ghost use Rattle.cn_net.specs.Network.{IsLinked, Network, device_of, link_between};
ghost use Rattle.cn_net.specs.declared.device.Body.{Body};
ghost use Rattle.cn_net.specs.declared.device.Device.{Device};

/// The link of two devices is up or down as asked, and that between any other two is as before. The
/// devices and the ends of all links stay.
pub fn with_link_changes_one_link()
    ensures changed { (net : Network) (a b : DeviceId) (up : Bool) → IsLinked net a b
        → link_between (with_link net a b up) a b ≡ Some up }
    ensures others { (net : Network) (a b : DeviceId) (up : Bool) (x y : DeviceId)
        → same_two a b x y ≡ false
        → link_between (with_link net a b up) x y ≡ link_between net x y }
    ensures all_else { (net : Network) (a b : DeviceId) (up : Bool)
        → DifferInUp net (with_link net a b up) }
{}

/// The device has the new body, and keeps its name, its layer and its id. Other devices and all
/// links stay.
pub fn with_body_changes_one_device()
    ensures changed { (net : Network) (d : DeviceId) (body : Body) (x : Device)
        → device_of net d ≡ Some x
        → device_of (with_body net d body) d ≡ Some (reloaded body x) }
    ensures others { (net : Network) (d : DeviceId) (body : Body) (e : DeviceId) → e ≢ d
        → device_of (with_body net d body) e ≡ device_of net e }
    ensures names { (net : Network) (d : DeviceId) (body : Body)
        → map (λ x. x.name) (with_body net d body).devices ≡ map (λ x. x.name) net.devices }
    ensures layers { (net : Network) (d : DeviceId) (body : Body)
        → map (λ x. x.layer) (with_body net d body).devices ≡ map (λ x. x.layer) net.devices }
    ensures ids { (net : Network) (d : DeviceId) (body : Body)
        → map (λ x. x.id) (with_body net d body).devices ≡ map (λ x. x.id) net.devices }
    ensures links { (net : Network) (d : DeviceId) (body : Body)
        → (with_body net d body).links ≡ net.links }
{}
