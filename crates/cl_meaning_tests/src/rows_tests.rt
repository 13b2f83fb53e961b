//! Small kernels with their buffers, of which each shows one thing.

use crate::driver::{is_defined, leaves};
use std::test::Fail;

// A text, what its kernel is given, and the buffers that it leaves.
type Row<'a> = (&'a str, &'a str, &'a str);

const REVERSED: &str =
    "__kernel void k(__global int*a,__local int*t){uint i=get_local_id(0),n=get_local_size(0);t[i]=a[get_global_id(0)];barrier(CLK_LOCAL_MEM_FENCE);a[get_global_id(0)]=t[n-1-i];}";

const REVERSED_IN_VARIABLE: &str =
    "__kernel void k(__global int*a){__local int t[8];uint i=get_local_id(0);t[i]=a[get_global_id(0)];barrier(CLK_LOCAL_MEM_FENCE);a[get_global_id(0)]=t[7-i];}";

const FLOW: &str =
    "int g(int n){int s=0;for(int i=0;i<n;i++){switch(i){case 0:s+=1;case 1:s+=10;break;case 2:continue;case 3:return s+1000;default:s+=100;}s+=5;}return s;}
__kernel void k(__global int*a){a[get_global_id(0)]=g(get_global_id(0));}";

const PADDED: &str =
    "typedef struct{char c;int3 v;short s;}S;__kernel void k(__global S*a){S t;t.c=1;t.v=(int3)(2,3,4);t.s=5;a[get_global_id(0)]=t;}";

const PUT: &str =
    "void put(__global int*p,int i){p[i]=i;}__kernel void k(__global int*a,__global int*b){put(a,1);put(b,2);put(b+2,1);}";

const RENAMED: &str = "int f(int x){return x*10;}
#define f(x) f(x)+1
__kernel void k(__global int*a){a[0]=f(2);}
#if 0
#error no
#endif
";

#[test]
fn leaves_buffers(rt: HostRuntime) -> Result<(), Fail> {
    let table: [Row<'_>; 14] = [
        (
            "__kernel void k(__global uint *a){a[get_global_id(0)]=get_global_id(0)+7;}",
            "g 4 l 2 w 0*4",
            "w 7 8 9 10",
        ),
        (
            "__kernel void k(__global int*a){a[0]=1<<33;a[1]=(char)-128>>9;}",
            "w 0 0",
            "w 2 -1",
        ),
        (
            "__kernel void k(__global int4*r,int4 a,int4 b){r[0]=a<b;}",
            "w 0*4 W 1 2 3 4 W 4 3 2 1",
            "w -1 -1 0 0",
        ),
        (
            PADDED,
            "g 2 l 1 b 238*96",
            "b 1 238*15 2 0*3 3 0*3 4 0*3 238*4 5 0 238*14 1 238*15 2 0*3 3 0*3 4 0*3 238*4 5 0 238*14",
        ),
        (PUT, "w 0 0 w 0*4", "w 0 1 w 0 0 2 1"),
        // one buffer that is given twice
        (
            "__kernel void k(__global int*a,__global int*b){int x=a[0];b[0]=x+1;a[1]=a[0];}",
            "w 5 0 f 0",
            "w 6 6",
        ),
        (
            REVERSED,
            "g 8 l 8 w 0 1 2 3 4 5 6 7 m 32",
            "w 7 6 5 4 3 2 1 0",
        ),
        (
            REVERSED,
            "g 8 l 4 w 0 1 2 3 4 5 6 7 m 16",
            "w 3 2 1 0 7 6 5 4",
        ),
        (
            "__kernel void k(__global int*h,__global const int*d){atomic_inc(h+d[get_global_id(0)]);}",
            "g 16 l 4 w 0*4 w 0 1 2 3 0 1 2 3 0 1 2 3 0 1 2 3",
            "w 4*4 w 0 1 2 3 0 1 2 3 0 1 2 3 0 1 2 3",
        ),
        (RENAMED, "w 0", "w 21"),
        (FLOW, "g 5 l 1 w 0*5", "w 0 16 31 31 1031"),
        (
            "__kernel void k(__global int*a){__local int t[8192];t[0]=1;a[get_global_id(0)]=t[0];}",
            "g 8 l 1 w 0*8",
            "w 1*8",
        ),
        (
            REVERSED_IN_VARIABLE,
            "g 8 l 8 w 0 1 2 3 4 5 6 7",
            "w 7 6 5 4 3 2 1 0",
        ),
        (
            "__kernel void k(__global int4*r){r[2]=r[0]<r[1];}",
            "w 1 2 3 4 4 3 2 1 0*4",
            "w 1 2 3 4 4 3 2 1 -1 -1 0 0",
        ),
    ];
    for (text, given, left) in table {
        assert!(rt; leaves(rt.alloc(), text, given, left, 1)?, "{text}");
        assert!(rt; leaves(rt.alloc(), text, given, left, 1_000_000)?, "{text}");
    }
    Ok(())
}

#[test]
fn leaves_buffers_of_operators_and_pointers(rt: HostRuntime) -> Result<(), Fail> {
    let table: [Row<'_>; 6] = [
        (
            "int f(int n){int s=0;do{n--;if(n==3)continue;if(n<1)break;s+=n;}while(n>0);return s;}__kernel void k(__global int*a){a[0]=f(6);}",
            "w 0",
            "w 12",
        ),
        (
            "void sw(int*x,int*y){int t=*x;*x=*y;*y=t;}__kernel void k(__global int*a){int p=a[0],q=a[1];sw(&p,&q);a[0]=p;a[1]=q;sw(&p,&p);a[2]=p;}",
            "w 3 4 0",
            "w 4 3 4",
        ),
        (
            "__kernel void k(__global int*a){int x=a[0],n=0;int*e=&x+1;for(int*p=&x;p!=e;p++){int*q=&*p;n+=*q;}a[1]=n;}",
            "w 5 0",
            "w 5 5",
        ),
        (
            "__kernel void k(__global int*a){int x=a[0],y=a[1];a[0]=x/y;a[1]=x%y;}",
            "w -7 2",
            "w -3 -1",
        ),
        (
            "__kernel void k(__global int*a){a[0]=add_sat(a[0],1);a[1]=hadd(a[1],4);a[2]=rotate(a[2],33);a[3]=upsample((uchar)1,(uchar)2);}",
            "w 2147483647 -3 1 0",
            "w 2147483647 0 2 258",
        ),
        (
            "__kernel void k(__global int*a){a[0]=mul_hi(a[0],a[1]);}",
            "w 65536 65536",
            "w 1 65536",
        ),
    ];
    for (text, given, left) in table {
        assert!(rt; leaves(rt.alloc(), text, given, left, 1)?, "{text}");
    }
    Ok(())
}

// Division by zero and out of range gives an unspecified value (6.3.a).
#[test]
fn divides_by_anything(rt: HostRuntime) -> Result<(), Fail> {
    let table = [
        (
            "__kernel void k(__global int*a,int x,int y){a[0]=x/y;}",
            "w 0 W 5 W 0",
        ),
        (
            "__kernel void k(__global int*a,int x,int y){a[0]=x/y;}",
            "w 0 W -2147483648 W -1",
        ),
        ("__kernel void k(__global int*a){a[0]=a[0]/a[1];}", "w 5 0"),
    ];
    for (text, given) in table {
        assert!(rt; is_defined(rt.alloc(), text, given, 1)?);
    }
    Ok(())
}

// Both items read before either writes, or one after the other.
#[test]
fn interleaves_items(rt: HostRuntime) -> Result<(), Fail> {
    const TEXT: &str = "__kernel void k(__global int*a){int x=a[0];a[0]=x+1;}";
    assert!(rt; leaves(rt.alloc(), TEXT, "g 2 l 2 w 0", "w 1", 1)?);
    assert!(rt; leaves(rt.alloc(), TEXT, "g 2 l 2 w 0", "w 2", 1_000_000)?);
    Ok(())
}
