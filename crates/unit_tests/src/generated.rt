// The text of a small module. A number counts modulo 2^31.
use std::alloc::Global;
use term_core::NoMemory;
use work_gen::make_module;

const EXPECTED: &str = ":- module(gen,[main/0],[assertions]).
:- use_module(library(lists),[append/3]).
:- pred srt(X,Y) : list(X,int) => list(Y,int).
srt([],[]).
srt([X|L],R) :- part(L,X,A,B), srt(A,S), srt(B,T), append(S,[X|T],R).
:- pred part(L,X,A,B) : (list(L,int), int(X)) => (list(A,int), list(B,int)).
part([],_,[],[]).
part([E|R],C,[E|A],B) :- E < C, part(R,C,A,B).
part([E|R],C,A,[E|B]) :- E >= C, part(R,C,A,B).
:- pred p1(X) => list(X,int).
p1(X) :- srt([116,333,938,571,640,521,262,87],X).
:- pred p2(X) => list(X,int).
p2(X) :- srt([796,717,450,227,880,465,646,327],X).
main :- p1(_), p2(_).
";

// Whether each number gives the module.
fn give_the_module(alloc: Global, numbers: &[u64]) -> Result<bool, NoMemory> {
    for number in numbers {
        if make_module(alloc, *number, 2)?.as_str() != EXPECTED {
            return Ok(false);
        }
    }
    Ok(true)
}

#[test]
fn a_module_with_two_predicates(rt: HostRuntime) -> Result<(), NoMemory> {
    assert!(rt; give_the_module(rt.alloc(), &[7, 2_147_483_655])?);
    Ok(())
}
