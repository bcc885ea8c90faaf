// The stations that a recording has opened.
use cost::count::Count;
use cost::float::Float;
use cost::ranked::Ranked;
use stations::station::Station;

// The latest of each kind, if there is one: the next opening at that kind takes its memory over.
#[derive(Drop)]
pub(crate) struct Latest {
    pub(crate) count: Option<Station<Count>>,
    pub(crate) ranked: Option<Station<Ranked>>,
    pub(crate) float: Option<Station<Float>>,
}

impl Latest {
    pub(crate) fn none() -> Latest {
        Latest {
            count: None,
            ranked: None,
            float: None,
        }
    }
}
