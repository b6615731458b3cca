//! What an emulated set grows to.

use cn_given::build::{layered, links_of};
use cn_given::opening::devices;
use cn_given::tables::given;
use cn_given::words::{self, compare};
use cn_grow::grow;
use cn_net::Net;
use std::alloc::Global;
use std::test::Fail;

// Two pods of two racks and two leaves, and two spines.
const LAYERS: &str = "1 1 2 2 1 1 2 2 3 3";

const LINKS: &str = "n0+n2 n0+n3 n1+n2 n1+n3 n4+n6 n4+n7 n5+n6 n5+n7 \
    n2+n8 n9+n2 n3+n8 n3+n9 n6+n8 n6+n9 n7+n8 n9+n7";

// The layers and the links, where they aren't those of the pods, the devices that have to be
// emulated, and those that are.
const CASES: &str = "
# from a rack over its leaves up to the spines
layers pods
must n0
gives n0 n2 n3 n8 n9
# from the spines nowhere
layers pods
must n9 n8
gives n8 n9
# from one rack in each pod
layers pods
must n5 n1
gives n1 n2 n3 n5 n6 n7 n8 n9
# nothing from nothing
layers pods
# a set that is closed already
layers pods
must n2 n8 n9
gives n2 n8 n9
# a device three times
layers pods
must n3 n3 n3
gives n3 n8 n9
# neither an equal layer, nor a greater one that no member is linked to
layers 1 1 2
links n0+n1 n1+n2
must n0
gives n0
# over links that are down, at either end, and past layers
layers 7 0 255 9
links n2-n0 n1-n0 n3+n2
must n1
gives n0 n1 n2
# a chain whose devices stand in no order
layers 4 2 5 1 3
links n0+n2 n4+n0 n3+n1 n1-n4
must n3
gives n0 n1 n2 n3 n4
# without links
layers 1 2
must n0
gives n0
";

fn net(alloc: Global, case: &str) -> Result<Net, Fail> {
    let layers = given(case, "layers");
    if layers == "pods" {
        layered(alloc, LAYERS, links_of(alloc, LINKS)?)
    } else {
        layered(alloc, layers, links_of(alloc, given(case, "links"))?)
    }
}

fn grown_in(alloc: Global, net: &Net, names: &str) -> Result<String, Fail> {
    let must = devices(alloc, net, names)?;
    let set = grow(alloc, net, &must)?;
    words::names(alloc, net, set.items())
}

fn grown(alloc: Global, case: &str) -> Result<String, Fail> {
    grown_in(alloc, &net(alloc, case)?, given(case, "must"))
}

#[test]
fn sets_grow(rt: HostRuntime) -> Result<(), Fail> {
    compare(rt.alloc(), CASES, grown)
}
