ghost use Rattle.std.specs.Prelude.{IfOk};
ghost use Rattle.runs.specs.Agreements.{SameRequest, SameCalls};
ghost use Rattle.compare_engines.specs.Scripts.{calls_of};

use crate::entry::Entry;
use runs::call::{Call, Request};
use std::alloc::{AllocError, Global};

// The same request, with memory of its own where it is one to write.
fn copy_request<'a>(heap: Global, request: &Request<'a>) -> Result<Request<'a>, AllocError>
    ensures { IfOk result (λ copy. SameRequest request.now copy) }
{
    let copy = match request {
        Request::Load(text) => Request::Load(text),
        Request::Open(pipe) => Request::Open(*pipe),
        Request::Close(pipe) => Request::Close(*pipe),
        Request::Limit { pipe, limit } => Request::Limit {
            pipe: *pipe,
            limit: *limit,
        },
        Request::Pattern(letters) => Request::Pattern(letters),
        Request::Report => Request::Report,
        Request::Governing(pipe) => Request::Governing(*pipe),
        Request::WriteSheet(space) => Request::WriteSheet(space.to_vec(heap)?),
        Request::ReadFlow(row) => Request::ReadFlow(row.to_vec(heap)?),
    };
    Ok(copy)
}

// The calls of a script's entries, for one more engine.
pub(crate) fn copy_calls<'a>(
    heap: Global,
    entries: &[Entry<'a>],
) -> Result<Vec<Call<'a>>, AllocError>
    ensures { IfOk result (λ copies. SameCalls (calls_of entries.now) copies.items) }
{
    let mut copies = Vec::new(heap);
    for entry in entries {
        let request = copy_request(heap, &entry.call.request)?;
        let places = entry.call.places;
        copies.push(Call { request, places })?;
    }
    Ok(copies)
}
