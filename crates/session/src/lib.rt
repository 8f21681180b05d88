// A list of calls played on a new module, with every reply: what they are, and that the run is safe.
#![tactic(auto)]

ghost use Rattle.std.specs.Prelude.{◌≡◌, map, IfOk};
ghost use Rattle.rbc.specs.Modeled.{modeled};
ghost use Rattle.session.specs.Sessions.{call_of, Heard, told_by, Played};

use host_data::front;
use rbc::Module;
use sense::{Answer, count};
use std::alloc::{AllocError, Global};
use store::Store;

#[derive(Clone, Copy, PartialEq, Eq, Debug)]
pub enum Call<'a> {
    Reset,
    // data_in is what the host's buffer holds before the command
    Command {
        host: u32,
        cdb: &'a [u8],
        data_out: &'a [u8],
        data_in: &'a [u8],
    },
}

#[derive(PartialEq, Eq, Debug, Drop)]
pub struct Reply {
    pub answer: Answer,
    // the bytes that were put at the front of data-in
    pub data: Vec<u8>,
}

// What a list of calls left: the module, and the replies in order.
#[derive(Drop)]
pub struct Session<S: Store> {
    pub module: Module<S>,
    pub replies: Vec<Reply>,
}

// One call, and its reply.
pub fn reply_to<S: Store>(
    heap: Global,
    module: &mut Module<S>,
    call: &Call<'_>,
) -> Result<Reply, AllocError>
    ensures { IfOk result (λ reply. Heard S.Store.steps (modeled S.Store.model «module».old) (call_of call.now) (told_by reply) (modeled S.Store.model «module».new)) }
{
    match call {
        Call::Command {
            host,
            cdb,
            data_out,
            data_in,
        } => {
            let mut buffer = data_in.to_vec(heap)?;
            let answer = module.command(*host, cdb, data_out, &mut buffer);
            let data = front(&buffer, count(answer) as usize).to_vec(heap)?;
            Ok(Reply { answer, data })
        }
        Call::Reset => {
            let answer = module.reset();
            Ok(Reply {
                answer,
                data: Vec::new(heap),
            })
        }
    }
}

// MAKE over the store, and then the calls.
pub fn play<S: Store + Drop>(
    heap: Global,
    store: S,
    calls: &[Call<'_>],
) -> Result<Session<S>, AllocError>
    ensures { IfOk result (λ v. Played S.Store.steps S.Store.meaning (S.Store.model store) (map call_of calls.now) (map told_by v.replies.items) (modeled S.Store.model v.«module»)) }
{
    let mut module = Module::make(store);
    let mut replies = Vec::new(heap);
    for call in calls {
        let reply = reply_to(heap, &mut module, call)?;
        replies.push(reply)?;
    }
    Ok(Session { module, replies })
}
