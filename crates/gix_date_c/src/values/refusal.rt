//! Why a text is refused, as C is told.
ghost use Rattle.std.specs.Prelude.{◌≡◌, Some, None};
ghost use Rattle.gix_date_c.specs as Spec;

use crate::values::status::Status;

/// Why a text is refused: the status, and the place in the text where it has one.
#[derive(Clone, Copy)]
pub(crate) struct Refusal {
    pub(crate) status: Status,
    pub(crate) place: Option<usize>,
}

impl Refusal {
    pub(crate) fn of(status: Status) -> Refusal
        ensures { result ≡ Spec.refused status }
    {
        Refusal {
            status,
            place: None,
        }
    }

    pub(crate) fn at(status: Status, place: usize) -> Refusal
        ensures { result ≡ Spec.refused_at status place }
    {
        Refusal {
            status,
            place: Some(place),
        }
    }
}

/// Stores the place of a refusal that has one, and leaves its status. Else the place stays as it is.
pub(crate) fn store_place<T: Drop>(
    answer: Result<T, Refusal>,
    place: &mut usize,
) -> Result<T, Status>
    ensures status { result ≡ Spec.with_status answer }
    ensures place { place.new ≡ Spec.place_after answer place.old }
{
    match answer {
        Ok(value) => Ok(value),
        Err(refusal) => {
            if let Some(at) = refusal.place {
                *place = at;
            }
            Err(refusal.status)
        }
    }
}
